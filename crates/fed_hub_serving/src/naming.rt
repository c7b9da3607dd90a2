// The names by which contracts know what threads share of a server that serves.
use std::marker::Brand;

/// What a server that serves goes by: the ids of its rooms, in the order of their places, and a wire for each; how its keys check signatures;
/// what receives its requests; and the inbox that it began with.
///
/// A value under a lock is known by its type alone: so each type whose values have to agree on these is generic over them.
pub trait ServingNaming {
    ghost use Rattle.std.specs.Prelude.{List, ℕ};
    ghost use Rattle.fed_event.specs.Checked.{CheckedEvent};
    ghost use Rattle.fed_keys.specs.Keys.{Checks};
    ghost use Rattle.fed_wires.specs.WireId.{WireId};
    ghost use Rattle.fed_inbox.specs.Receiver.{ReceiverState};
    ghost use Rattle.fed_inbox.specs.Inbox.{InboxState};

    ghost known: { List (List ℕ) };

    ghost rooms: { List (WireId CheckedEvent) };

    ghost checks: { Checks };

    ghost receiver: { ReceiverState };

    ghost beginning: { InboxState };
}

impl ServingNaming for Brand {
    ghost use Rattle.std.specs.Prelude.{[], false};

    ghost known = { [] };

    ghost rooms = { [] };

    ghost checks = { λ server key bytes signature. false };

    ghost receiver = { record { own = []; servers = []; rooms = [] } };

    ghost beginning = { record { own = []; rooms = []; logs = [] } };
}
