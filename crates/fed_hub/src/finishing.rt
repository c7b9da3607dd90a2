// How a hub ends, when all of its threads have returned.
ghost use Rattle.std.specs.Prelude.{◌≡◌, ◌↔◌, true, length, IsTrue, IfOk, IfErr, OnOk};
ghost use Rattle.fed_hub.specs.Finishing.{IsCounted, IsInTurn, first_fault};
ghost use Rattle.fed_hub.specs.Report.{IsFitting, NoReaderSawMore, parts_in, settled_counts};
ghost use Rattle.fed_hub.specs.Tokens.{AreAllTokens, AreNoneMissing, AreSameTokens};

use crate::faults::FinishFault;
use crate::hub::Hub;
use crate::report::Report;
use crate::tokens::Tokens;
use fed_event::Keys;
use fed_hub_serving::ServingNaming;
use fed_hub_state::{Naming, SendingJournal};
use std::alloc::Global;

impl<N: Naming + ServingNaming, K: Keys + Drop> Hub<N, K> {
    /// Ends the hub once all of its threads have returned, with all the tokens that it gave them, and compares what these hold with what lay
    /// under its locks. It waits for nobody. It goes through the journal once for each listed server, and through all else once; of each event
    /// its room finds the state before it. Where all fits, the board ends with all of its seats, which are compared by one load for each of them
    /// and each listed server.
    ///
    /// # Errors
    ///
    /// The hub and the tokens as they were, and the first of these faults.
    ///
    /// - `NotShutDown`, where the hub is not shut down
    /// - `Missing`, where a token of the hub is not among these
    /// - `Unequal`, where there is a token more than the hub gave, or what the threads hold and what lay under the locks do not fit together
    ///
    /// And `Memory`, behind the first two and a token more, which take none.
    pub fn finish(
        self,
        alloc: Global,
        tokens: Tokens<N>,
    ) -> Result<Report<N>, (Hub<N, K>, Tokens<N>, FinishFault)>
        ensures all { OnOk result (AreAllTokens self (length N.rooms) tokens) }
        ensures shut { IfOk result (λ report. report.journal.is_shut ≡ true) }
        ensures each { IfOk result (λ report. length report.outboxes.items ≡ length self.list) }
        ensures fits { IfOk result (λ report. IsFitting self.list self.own N.known (parts_in report) tokens) }
        ensures delivered { IfOk result (λ report. report.delivered.items ≡ settled_counts report.outboxes.items) }
        ensures seen { IfOk result (λ report. NoReaderSawMore report.outboxes.items tokens.readers.items) }
        ensures same { IfErr result (λ e. (e.0 ≡ self) × AreSameTokens tokens e.1) }
        ensures in_turn { IfErr result (λ e. IsInTurn (AreNoneMissing self (length N.rooms) tokens) (AreAllTokens self (length N.rooms) tokens) e.2) }
    {
        let (rest, unlocked) = match self.open(alloc, &tokens) {
            Ok(opened) => opened,
            Err((hub, fault)) => return Err((hub, tokens, fault)),
        };
        match rest.compare(alloc, &unlocked, &tokens) {
            Ok(()) => Ok(rest.end(unlocked, tokens.readers)),
            Err(fault) => Err((rest.close(unlocked), tokens, fault)),
        }
    }

    // Whether these are the tokens that the hub gave to its threads, by how many there are of each kind. Else one is `Missing`, or there are too
    // many, which is `Unequal`.
    pub(crate) fn count(&self, tokens: &Tokens<N>) -> Result<(), FinishFault>
        ensures { IsCounted (AreNoneMissing self.now (length N.rooms) tokens.now) (AreAllTokens self.now (length N.rooms) tokens.now) result }
    {
        if !self.misses_none(tokens) {
            return Err(FinishFault::Missing);
        }
        if !self.has_all(tokens) {
            return Err(FinishFault::Unequal);
        }
        Ok(())
    }

    // Whether there are no fewer tokens of each kind than the hub gave to its threads.
    fn misses_none(&self, tokens: &Tokens<N>) -> bool
        ensures { IsTrue result ↔ AreNoneMissing self.now (length N.rooms) tokens.now }
    {
        tokens.clients.len() as u64 >= self.clients
            && tokens.readers.len() >= self.readers
            && tokens.senders.len() + 1 >= self.list.len()
            && tokens.rooms.len() >= self.rooms.len()
            && tokens.servers.len() >= self.list.len()
    }

    // Whether there are as many of each kind.
    fn has_all(&self, tokens: &Tokens<N>) -> bool
        ensures { IsTrue result ↔ AreAllTokens self.now (length N.rooms) tokens.now }
    {
        tokens.clients.len() as u64 == self.clients
            && tokens.readers.len() == self.readers
            && tokens.senders.len() + 1 == self.list.len()
            && tokens.rooms.len() == self.rooms.len()
            && tokens.servers.len() == self.list.len()
    }
}

// Why a hub of this journal is not at its end, where that is told without memory. `counted` tells whether the tokens are those of the hub.
pub(crate) fn may_finish<N: Naming>(
    journal: &SendingJournal<N>,
    counted: Result<(), FinishFault>,
) -> Result<(), FinishFault>
    ensures { result ≡ first_fault journal.now.is_shut counted }
{
    if !journal.is_shut() {
        return Err(FinishFault::NotShutDown);
    }
    counted
}
