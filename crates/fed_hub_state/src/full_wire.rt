// A wire to a destination that had no room.
use fed_dest::ServerIndex;
use fed_journal::Parcel;
use fed_wires::NoRoom;

/// A destination whose wire had no room for a parcel, and what shows it. Only a look at the credits of that wire gives one.
#[derive(Debug, Drop)]
pub struct FullWire {
    pub dest: ServerIndex,
    pub no_room: NoRoom<Parcel>,
}
