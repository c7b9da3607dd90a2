// What the words of a command line ask for.

/// What the words of a command line ask for.
#[derive(Drop)]
pub enum Asked {
    Inbox(InboxWords),
    /// Servers that a script makes: that of the file of this name, or of standard input.
    Sim(Option<String>),
    /// Two servers over sockets, and so many events by so many clients.
    Loop { events: u64, clients: u64 },
}

/// The inbox of a server: its name, those of the other servers, as they are given, and the room that it knows.
#[derive(Drop)]
pub struct InboxWords {
    pub name: String,
    pub servers: Vec<String>,
    pub room: String,
}

/// The greatest numbers of events and of clients that may be asked for. The least are 1.
#[derive(Clone, Copy)]
pub struct Most {
    pub events: i64,
    pub clients: i64,
}
