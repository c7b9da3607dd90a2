// The outbox of one destination.
ghost use Rattle.std.specs.Prelude.{◌≡◌, ◌≤◌, ◌+◌, ◌^◌, Ok, Err, OnOk, OnErr, IfErr, IsOk, Some, None, true, false, if◌then◌else◌, length, option_map, take, drop};
ghost use Rattle.std.specs.Borrow.{sem};
ghost use Rattle.fed_journal.specs.declared.parcel.Load.TheVariants.{End};
ghost use Rattle.fed_outbox.specs.declared.fault.OutboxFault.TheVariants.{Memory, WrongPlace, Ended};
ghost use Rattle.fed_outbox.specs.Seen.{seen};
ghost use Rattle.fed_outbox.specs.Outbox.{delay};

use crate::fault::OutboxFault;
use crate::sent::Sent;
use crate::settlement::Settlement;
use crate::transaction::{MAX_EDUS, MAX_PDUS, Transaction};
use fed_dest::ServerIndex;
use fed_event::Checked;
use fed_journal::{Load, Parcel, Place};
use fed_json::Json;
use std::alloc::Global;
use std::marker::Model;

/// The status of an answer by which a transaction was taken (Server-Server API, "PUT /_matrix/federation/v1/send/{txnId}").
const TAKEN: u16 = 200;

/// The most failures in a row that are counted.
const MAX_FAILURES: u32 = 13;

/// What was accepted for one destination, and how far it was delivered: what is settled, the transaction that waits for its answer,
/// and what waits to be sent (Server-Server API, "Transactions").
///
/// Moments are in milliseconds since the Unix epoch.
#[derive(Drop)]
pub struct Outbox {
    dest: ServerIndex,
    pdus: Vec<Checked>,
    edus: Vec<Json>,
    acked: usize,
    acked_edus: usize,
    unanswered: Option<Sent>,
    last: u64,
    failures: u32,
    due_at: u64,
    has_end: bool,
}

impl Model for Outbox {
    ghost use Rattle.fed_outbox.specs.Outbox.{OutboxState, outbox_code};

    ghost Value = { OutboxState };

    ghost coded = { outbox_code };

    ghost use Rattle.fed_outbox.specs.Parts.{outbox_of, IsKept};

    ghost view = { outbox_of };

    ghost invariant = { IsKept };
}

impl Outbox {
    ghost use Rattle.fed_outbox.specs.Outbox.{new_outbox, accepted, accepted_edus, accepted_count, expected, fits, is_next, with_load, can_cut, cut, is_due, has_number, failed, settle, is_ended, is_unanswered, next_transaction};
    ghost use Rattle.fed_outbox.specs.Settlement.{settlement};
    ghost use Rattle.fed_outbox.specs.Answering.{failed_once, due_told, answered, answer_told};
    ghost use Rattle.fed_outbox.specs.Together.{HoldsTogether};
    ghost use Rattle.fed_outbox.specs.Lending.{EndsAs};

    /// The outbox of a destination, for which nothing was accepted.
    pub fn new(alloc: Global, dest: ServerIndex) -> Outbox
        ensures { result ≡ new_outbox dest }
    {
        Outbox {
            dest,
            pdus: Vec::new(alloc),
            edus: Vec::new(alloc),
            acked: 0,
            acked_edus: 0,
            unanswered: None,
            last: 0,
            failures: 0,
            due_at: 0,
            has_end: false,
        }
    }

    /// The destination.
    pub fn dest(&self) -> ServerIndex
        ensures { result ≡ self.now.dest }
    {
        self.dest
    }

    /// All events that were accepted, in order: first those that are settled, then those of the unanswered transaction.
    pub fn accepted(&self) -> &[Checked]
        ensures { result.now ≡ accepted self.now }
    {
        self.pdus.as_slice()
    }

    /// All EDUs that were accepted, in order: first those that are settled, then those of the unanswered transaction.
    pub fn accepted_edus(&self) -> &[Json]
        ensures { result.now ≡ accepted_edus self.now }
    {
        self.edus.as_slice()
    }

    /// The number of the next parcel.
    pub fn expected(&self) -> u64
        ensures number { result ≡ expected self.now }
        ensures within { result ≤ 2 ^ 53 + 2 }
    {
        self.pdus.len() as u64 + self.edus.len() as u64 + self.has_end as u64 + 1
    }

    /// Whether a parcel at this place would be accepted, but for memory: it is for this destination and comes next, and no end was
    /// accepted.
    pub fn fits(&self, place: Place) -> bool
        ensures { result ≡ fits self.now place }
    {
        !self.has_end && self.is_next(place)
    }

    // Whether the place is this destination's and comes next.
    fn is_next(&self, place: Place) -> bool
        ensures next { result ≡ is_next self.now place }
        ensures within { result ≡ true → expected self.now ≤ 2 ^ 53 + 1 }
    {
        place.dest() == self.dest && place.number() == self.expected()
    }

    /// Takes in the next parcel, whose event or EDU then waits to be sent. An end takes no memory.
    ///
    /// # Errors
    ///
    /// The parcel and why it is not accepted; then the outbox is as it was. `Ended` where an end was accepted, and else `WrongPlace`
    /// with the number of the next parcel where this one is for another destination or has another number: both are told without
    /// memory. `Memory` of an event or an EDU that fits.
    pub fn accept(&mut self, parcel: Parcel) -> Result<(), (Parcel, OutboxFault)>
        ensures ok { OnOk result (self.new ≡ with_load self.old parcel.load) }
        ensures fitted { OnOk result (fits self.old parcel.place ≡ true) }
        ensures err { OnErr result (self.new ≡ self.old) }
        ensures back { IfErr result (λ e. e.0 ≡ parcel) }
        ensures ended { self.old.has_end ≡ true → result ≡ Err (parcel, Ended) }
        ensures wrong { self.old.has_end ≡ false → is_next self.old parcel.place ≡ false → result ≡ Err (parcel, WrongPlace (expected self.old)) }
        ensures memory { fits self.old parcel.place ≡ true → IfErr result (λ e. e.1 ≡ Memory) }
        ensures end { fits self.old parcel.place ≡ true → parcel.load ≡ End → IsOk result }
    {
        if self.has_end {
            return Err((parcel, OutboxFault::Ended));
        }
        if !self.is_next(parcel.place) {
            return Err((parcel, OutboxFault::WrongPlace(self.expected())));
        }
        let Parcel { place, load } = parcel;
        match load {
            Load::Event(event) => {
                if let Err(error) = self.pdus.reserve(1) {
                    let load = Load::Event(event);
                    return Err((Parcel { place, load }, OutboxFault::from(error)));
                }
                // There is room.
                self.pdus.push(event).unwrap();
            }
            Load::Edu(edu) => {
                if let Err(error) = self.edus.reserve(1) {
                    let load = Load::Edu(edu);
                    return Err((Parcel { place, load }, OutboxFault::from(error)));
                }
                // There is room.
                self.edus.push(edu).unwrap();
            }
            Load::End => self.has_end = true,
        }
        Ok(())
    }

    /// Makes a transaction of the first events and EDUs that wait, as many as it may have, where none is unanswered and something
    /// waits: it is then the unanswered one, dated and due now. It takes no memory.
    pub fn cut(&mut self, now: u64) -> Option<Transaction<'_>>
        requires { now ≤ 9007199254740991 }
        ensures* cut { sem 𝓛 (EndsAs self.entry (cut self.old now)) }
        ensures value { option_map seen result ≡ (if can_cut self.old then Some (next_transaction self.old now) else None) }
    {
        if self.cut_next(now) {
            self.unanswered()
        } else {
            None
        }
    }

    // The same, but for lending the transaction: whether one was made.
    fn cut_next(&mut self, now: u64) -> bool
        requires { now ≤ 9007199254740991 }
        ensures cut { self.new ≡ cut self.old now }
        ensures value { result ≡ can_cut self.old }
    {
        if !self.can_cut() {
            return false;
        }
        let pdus = (self.pdus.len() - self.acked).min(MAX_PDUS);
        let edus = (self.edus.len() - self.acked_edus).min(MAX_EDUS);
        self.last += 1;
        self.due_at = now;
        self.unanswered = Some(Sent {
            number: self.last,
            at_ms: now,
            pdus,
            edus,
        });
        true
    }

    // Whether none is unanswered, and something waits.
    fn can_cut(&self) -> bool
        ensures { result ≡ can_cut self.now }
    {
        self.unanswered.is_none()
            && (self.acked < self.pdus.len() || self.acked_edus < self.edus.len())
    }

    /// The transaction that waits for its answer.
    pub fn unanswered(&self) -> Option<Transaction<'_>>
        ensures value { option_map seen result ≡ self.now.unanswered }
        ensures together { HoldsTogether self.now }
    {
        let sent = self.unanswered?;
        Some(Transaction {
            number: sent.number,
            at_ms: sent.at_ms,
            pdus: part(self.pdus.as_slice(), self.acked, sent.pdus),
            edus: part(self.edus.as_slice(), self.acked_edus, sent.edus),
        })
    }

    /// Whether a transaction is unanswered and to be sent now.
    pub fn due(&self, now: u64) -> bool
        ensures { result ≡ is_due self.now now }
    {
        self.unanswered.is_some() && self.due_at <= now
    }

    /// When the unanswered transaction is to be sent, and 0 where there is none.
    pub fn due_at(&self) -> u64
        ensures due_at { result ≡ self.now.due_at }
        ensures none { is_unanswered self.now.unanswered ≡ false → result ≡ 0 }
    {
        self.due_at
    }

    // Whether the transaction of this number is the unanswered one.
    fn has_number(&self, n: u64) -> bool
        ensures { result ≡ has_number self.now.unanswered n }
    {
        match self.unanswered {
            Some(sent) => sent.number == n,
            None => false,
        }
    }

    /// The sending of transaction `n` failed: it is due again after a delay, which doubles with each failure in a row from a second up
    /// to an hour. Returns whether it is the unanswered one; else nothing changes. It takes no memory.
    pub fn failed(&mut self, n: u64, now: u64) -> bool
        requires { now ≤ 9007199254740991 }
        ensures failed { self.new ≡ failed self.old n now }
        ensures value { result ≡ has_number self.old.unanswered n }
    {
        if !self.has_number(n) {
            return false;
        }
        self.failures = (self.failures + 1).min(MAX_FAILURES);
        self.due_at = now + delay(self.failures);
        true
    }

    /// Transaction `n` was answered with this status. By 200 its events and EDUs are settled, and by another status it has failed, as
    /// `failed` says; where it is not the unanswered one nothing changes. It takes no memory.
    pub fn settle(&mut self, n: u64, status: u16, now: u64) -> Settlement
        requires { now ≤ 9007199254740991 }
        ensures settle { self.new ≡ settle self.old n status now }
        ensures value { result ≡ settlement self.old n status }
    {
        if status != TAKEN {
            return if self.failed(n, now) {
                Settlement::Failed
            } else {
                Settlement::Ignored
            };
        }
        let Some(sent) = self.unanswered else {
            return Settlement::Ignored;
        };
        if sent.number != n {
            return Settlement::Ignored;
        }
        self.acked += sent.pdus;
        self.acked_edus += sent.edus;
        self.unanswered = None;
        self.failures = 0;
        self.due_at = 0;
        Settlement::Settled
    }

    /// The sending of the unanswered transaction failed, as `failed` says: when it is due again. `None` where none is unanswered; then
    /// nothing changes. It takes no memory.
    pub fn failed_once(&mut self, now: u64) -> Option<u64>
        requires { now ≤ 9007199254740991 }
        ensures failed { self.new ≡ failed_once self.old now }
        ensures told { result ≡ due_told self.old now }
    {
        let number = self.unanswered()?.number;
        self.failed(number, now);
        Some(self.due_at())
    }

    /// Transaction `n` was answered with this status, as `settle` says, or with what is no answer that can be read, by which it has
    /// failed. It takes no memory.
    pub fn answered(&mut self, n: u64, status: Option<u16>, now: u64) -> Settlement
        requires { now ≤ 9007199254740991 }
        ensures answered { self.new ≡ answered self.old n status now }
        ensures told { result ≡ answer_told self.old n status }
    {
        match status {
            Some(status) => self.settle(n, status, now),
            None if self.failed(n, now) => Settlement::Failed,
            None => Settlement::Ignored,
        }
    }

    /// Whether an end was accepted. It takes no memory.
    pub fn has_end(&self) -> bool
        ensures { result ≡ self.now.has_end }
    {
        self.has_end
    }

    /// How many events are settled.
    pub fn acked(&self) -> u64
        ensures { result ≡ length self.now.settled }
    {
        self.acked as u64
    }

    /// How many EDUs are settled.
    pub fn acked_edus(&self) -> u64
        ensures { result ≡ length self.now.settled_edus }
    {
        self.acked_edus as u64
    }

    /// Whether an end was accepted, and all that was accepted is settled.
    pub fn ended(&self) -> bool
        ensures { result ≡ is_ended self.now }
    {
        self.has_end
            && self.unanswered.is_none()
            && self.acked == self.pdus.len()
            && self.acked_edus == self.edus.len()
    }
}

// So many items, from a place on.
fn part<T>(items: &[T], from: usize, count: usize) -> &[T]
    requires { from + count ≤ length items.now }
    ensures { result.now ≡ take count (drop from items.now) }
{
    &items[from..from + count]
}

// How long to wait after so many failures in a row, in milliseconds.
fn delay(failures: u32) -> u64
    requires { failures ≤ 13 }
    ensures value { result ≡ delay failures }
    ensures small { result ≤ 3600000 }
{
    let doublings = failures.saturating_sub(1);
    (1000u64 << doublings).min(3_600_000)
}
