// What the threads that serve share.
ghost use Rattle.std.specs.Prelude.{◌≡◌, None, IfOk, map, string_bytes};
ghost use Rattle.fed_hub_serving.specs.Served.{IsServed};
ghost use Rattle.fed_hub_serving.specs.Wires.{AreUnused, names_of};
ghost use Rattle.fed_hub.specs.Setup.{IsReceptionOf, ids_of};

use crate::was_shut::WasShut;
use fed_dest::{List, ServerName};
use fed_event::{Checked, Keys};
use fed_hub_serving::{
    KeptInbox, LockedInbox, ServeToken, Served, ServingDesk, ServingNaming, SharedInbox, serve_one,
};
use fed_hub_state::KeptRoom;
use fed_inbox::{Inbox, Receiver};
use fed_json::NoMemory;
use fed_replies::PackedStore;
use fed_wires::{AnyMessage, Credits, SendEnd};
use std::alloc::Global;
use std::io::{Read, Write};
use std::marker::{Model, PhantomData};
use std::sync::{Mutex, Wait};

/// What receives the requests of other servers: the ids of the rooms, in the order of their places, what judges a request, and the inbox under
/// its lock.
///
/// Contracts see the ids of the rooms.
#[derive(Drop)]
pub(crate) struct Reception<N: ServingNaming> {
    known: Vec<String>,
    receiver: Receiver,
    inbox: SharedInbox<N, PackedStore>,
}

impl<N: ServingNaming> Model for Reception<N> {
    ghost use Rattle.std.specs.Prelude.{◌≡◌, ℕ, List, length, map, string_bytes};
    ghost use Rattle.std.specs.Coded.{coded_ℕ, coded_list};

    ghost Value = { List (List ℕ) };

    ghost coded = { coded_list (coded_list coded_ℕ) };

    ghost view = { λ r. map string_bytes r.known.items };

    ghost invariant = { λ r. (map string_bytes r.known.items ≡ N.known) × (r.receiver ≡ N.receiver) };
}

impl<N: ServingNaming> Reception<N> {
    /// The reception of a server of a list, which has answered no request, with these rooms and the ends that send of their wires.
    pub(crate) fn new(
        alloc: Global,
        own: &ServerName,
        list: &List,
        rooms: &[KeptRoom],
        ends: Vec<SendEnd<Checked, AnyMessage>>,
    ) -> Result<Reception<N>, NoMemory>
        requires known { N.known ≡ ids_of rooms.now }
        requires inbox { IsReceptionOf own.now list.now N.known N.receiver N.beginning }
        requires wires { names_of ends.items ≡ N.rooms }
        requires unused { AreUnused ends.items }
        ensures { IfOk result (λ reception. reception ≡ N.known) }
    {
        let known = ids_of(alloc, rooms)?;
        let receiver = Receiver::new(
            alloc,
            own.copy(alloc)?,
            list.copy(alloc)?,
            ids_of(alloc, rooms)?,
        )?;
        let inbox = Inbox::new(
            alloc,
            own.copy(alloc)?,
            list.copy(alloc)?,
            ids_of(alloc, rooms)?,
            PackedStore::new(alloc),
        )?;
        let credits = Credits::new(alloc, &ends)?;
        let inbox = KeptInbox::new(alloc, inbox, ends)?;
        let inbox = SharedInbox {
            inbox: Mutex::new(inbox),
            credits,
        };
        Ok(Reception {
            known,
            receiver,
            inbox,
        })
    }

    /// Answers one request, as `fed_hub_serving::serve_one`.
    pub(crate) fn serve_one<K: Keys, R: Read, W: Write, T: Wait>(
        &self,
        rt: &T,
        alloc: Global,
        keys: &K,
        token: &mut ServeToken<N>,
        reader: &mut R,
        writer: &mut W,
    ) -> Served
        requires { K.checks keys.now ≡ N.checks }
        ensures { IsServed N.checks N.known N.beginning (record { left = R.remaining reader.old; written = W.contents writer.old; inbox = None; given = token.old }) (record { left = R.remaining reader.new; written = W.contents writer.new; inbox = None; given = token.new }) result }
    {
        let desk = ServingDesk {
            receiver: &self.receiver,
            known: &self.known,
            keys,
        };
        let mut inbox = LockedInbox {
            shared: &self.inbox,
        };
        serve_one(rt, alloc, &desk, &mut inbox, token, reader, writer)
    }

    /// The inbox under its lock.
    pub(crate) fn inbox(&self) -> &Mutex<KeptInbox<N, PackedStore>> {
        &self.inbox.inbox
    }

    /// Ends the wires of all rooms that have not ended. That is for the hub that was shut down.
    pub(crate) fn end_rooms<R: Wait>(&self, rt: &R, _shut: WasShut<N>) {
        self.inbox.inbox.lock(rt).end_rooms();
    }
}

/// A reception whose inbox was taken out of its lock for good. Contracts see the ids of the rooms.
#[derive(Drop)]
pub(crate) struct Desk<N: ServingNaming> {
    known: Vec<String>,
    receiver: Receiver,
    credits: Credits,
    of: PhantomData<N>,
}

impl<N: ServingNaming> Model for Desk<N> {
    ghost use Rattle.std.specs.Prelude.{◌≡◌, ℕ, List, length, map, string_bytes};
    ghost use Rattle.std.specs.Coded.{coded_ℕ, coded_list};

    ghost Value = { List (List ℕ) };

    ghost coded = { coded_list (coded_list coded_ℕ) };

    ghost view = { λ r. map string_bytes r.known.items };

    ghost invariant = { λ r. (map string_bytes r.known.items ≡ N.known) × (r.receiver ≡ N.receiver) × (r.credits ≡ length N.rooms) };
}

impl<N: ServingNaming> Reception<N> {
    /// Takes the inbox out of its lock.
    pub(crate) fn open(self) -> (Desk<N>, KeptInbox<N, PackedStore>)
        ensures { result.0 ≡ self }
    {
        let Reception {
            known,
            receiver,
            inbox: SharedInbox { inbox, credits },
        } = self;
        let desk = Desk {
            known,
            receiver,
            credits,
            of: PhantomData,
        };
        (desk, inbox.into_inner())
    }
}

impl<N: ServingNaming> Desk<N> {
    /// The ids of the rooms.
    pub(crate) fn known(&self) -> &[String]
        ensures { map string_bytes result.now ≡ N.known }
    {
        &self.known
    }

    /// Puts the inbox under its lock again.
    pub(crate) fn close(self, inbox: KeptInbox<N, PackedStore>) -> Reception<N>
        ensures { result ≡ self }
    {
        let Desk {
            known,
            receiver,
            credits,
            of: _,
        } = self;
        Reception {
            known,
            receiver,
            inbox: SharedInbox {
                inbox: Mutex::new(inbox),
                credits,
            },
        }
    }
}

// The ids of rooms.
fn ids_of(alloc: Global, rooms: &[KeptRoom]) -> Result<Vec<String>, NoMemory>
    ensures { IfOk result (λ ids. map string_bytes ids.items ≡ ids_of rooms.now) }
{
    let mut ids = Vec::with_capacity(alloc, rooms.len())?;
    for room in rooms {
        ids.push(String::from_str(alloc, room.id())?)?;
    }
    Ok(ids)
}
