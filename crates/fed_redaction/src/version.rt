// The versions of rooms.
ghost use Rattle.std.specs.Prelude.{◌≡◌};
ghost use Rattle.fed_redaction.specs.Version.{name_of, version_named, names_creator};

/// The version of a room (Matrix, "Room versions"), which its create event names. What redaction keeps of an event, and with it what
/// is signed of the event and its id, depend on it.
#[derive(Clone, Copy, Debug, PartialEq, Eq)]
pub enum Version {
    V10,
    V11,
}

impl Version {
    /// The version of this name, where it is a known one.
    pub fn read(name: &str) -> Option<Version>
        ensures { result ≡ version_named name.now }
    {
        match name {
            "10" => Some(Version::V10),
            "11" => Some(Version::V11),
            _ => None,
        }
    }

    /// The name, as the content of a create event has it at `room_version`.
    pub fn name(self) -> &'static str
        ensures { result.now ≡ name_of self }
    {
        match self {
            Version::V10 => "10",
            Version::V11 => "11",
        }
    }

    /// Whether the content of a create event names the creator of the room, who is its sender otherwise.
    pub fn names_creator(self) -> bool
        ensures { result ≡ names_creator self }
    {
        match self {
            Version::V10 => true,
            Version::V11 => false,
        }
    }
}
