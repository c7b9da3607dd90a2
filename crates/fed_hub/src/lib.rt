//! A hub: a Matrix server, as its threads share it. Client threads offer events and ephemeral data units, a thread for each other server delivers
//! them, others answer the requests that come, a thread for each room stores what they bring, and any thread reads how much was delivered.
//!
//! A caller says as a `Crew` what the threads of a hub do, and as an `Outcome` what comes of it: `run_crew` makes the hub, runs a thread for each
//! token, and ends it. Who proves something of a hub's names makes an `Opened`, and calls a function that is generic over a `Naming` and a
//! `ServingNaming` of these; that function makes the `Hub` and the `Tokens`.
//!
//! - `running`: `run_crew`, a hub from its beginning to its end, and `Outcome`; `crew`: `Crew`, what its threads do; `muster`:
//!   `Muster`, threads that begin together or not at all
//! - `setup`: `Setup`, what a hub is made of; `opened`: `Opened`, what its threads will share, before it has names in a type; `wires`: new wires
//! - `hub`: `Hub`; `making`: how it is made; `rooms`: its rooms, by their ids
//! - `reception`: what receives the requests of other servers
//! - `tokens`: `Tokens`, and of these `SenderToken` and `Seat`, what threads hold; `client_token`: `ClientToken`, what a client's thread holds
//! - `offering`: `Sent`; what client threads ask of a hub: `send`, `offer_edu`, `close_outbox`, `shut_down`
//! - `was_shut`: what shows that the journal was shut down
//! - `ready`: what is made ready for an event or an EDU before the journal is locked
//! - `collecting`, `collected`: how parcels go from a wire into an outbox, and `Collected`, what became of a collect
//! - `sending`: `run_sender`, what the thread that sends to one destination does
//! - `serving`: `serve_one` and `run_room`, what threads do that serve other servers, and that store what came for a room
//! - `finishing`: how a hub ends when its threads have returned; `report`: `Report`, what it did; `rest`, `unlocked`, `locking`: its locks are
//!   opened for that; `seats`: how the seats at its board end
//! - `carrier`, `gate`: `Carrier` and `CarrierFault`, what brings requests to other servers; `Gate`, a clock that may hold a thread back
//! - `faults`: `SendFault`, `EduFault`, `HubFault`, `FinishFault`
//! - `sections`: what a thread does while it holds locks
#![tactic(auto)]

mod carrier;
mod client_token;
mod collected;
mod collecting;
mod crew;
mod faults;
mod finishing;
mod gate;
mod hub;
mod locking;
mod making;
mod muster;
mod offering;
mod opened;
mod ready;
mod reception;
mod report;
mod rest;
mod rooms;
mod running;
mod seats;
mod sending;
mod serving;
mod setup;
mod tokens;
mod unlocked;
mod was_shut;
mod wires;

pub use carrier::{Carrier, CarrierFault, FaultCount};
pub use client_token::ClientToken;
pub use collected::Collected;
pub use crew::Crew;
pub use faults::{EduFault, FinishFault, HubFault, SendFault};
pub use fed_hub_rooms::{Ran, RoomToken};
pub use fed_hub_serving::{ServeToken, Served, ServingNaming};
pub use fed_hub_state::{KeptRoom, Naming, sections};
pub use fed_hub_told::{Told, ToldEdu, ToldEvent};
pub use fed_journal::JournalFault as CloseFault;
pub use gate::Gate;
pub use hub::Hub;
pub use muster::Muster;
pub use offering::Sent;
pub use opened::Opened;
pub use report::Report;
pub use running::{Outcome, run_crew};
pub use setup::Setup;
pub use tokens::{Seat, SenderToken, Tokens};
