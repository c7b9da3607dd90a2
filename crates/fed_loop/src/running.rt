// Both servers.
use crate::course::Course;
use crate::faults::{FirstFault, LoopFault};
use crate::load::{Counts, Load};
use crate::sending::{Offered, send_all};
use crate::taking::take_all;
use fed_hub::Muster;
use fed_tcp::{Connector, Door};
use std::alloc::Global;
use std::net::{Ipv4Addr, Net, SocketAddr, TcpListener, TcpStream};
use std::sync::Wait;
use std::thread::{Threads, join};
use std::time::Clock;

/// The servers a.example and b.example, with one room of a user of each: clients at a send events, which go over the loopback interface to b.
/// Each client has a thread, and so have what delivers at a, what serves at b, and the room at both. It ends when all is delivered and all
/// threads have returned, and both servers have been compared with what their threads hold.
///
/// # Errors
///
/// The first fault that a thread met, or that of the setup or of the end of a server.
pub fn loop_run<R>(rt: &R, alloc: Global, load: Load) -> Result<Counts, LoopFault>
where
    R: Threads + Wait + Clock + Net<Stream = TcpStream, Listener = TcpListener> + Sync,
{
    let door = Door::open(rt, SocketAddr::from((Ipv4Addr::LOCALHOST, 0)))?;
    let course = Course {
        load,
        door,
        faults: FirstFault::new(),
        muster: Muster::new(2),
    };
    run_both(rt, alloc, &course)
}

// Runs both servers at once.
fn run_both<R>(rt: R, alloc: Global, course: &Course) -> Result<Counts, LoopFault>
where
    R: Threads + Wait + Clock + Connector + Copy + Sync,
{
    let (offered, taken) = join(
        &rt,
        || send_all(rt, alloc, course),
        || take_all(rt, alloc, course),
    );
    if let Some(fault) = course.faults.first(&rt) {
        return Err(fault);
    }
    let Offered { sent, delivered } = offered?;
    Ok(Counts {
        sent,
        taken: taken?,
        delivered,
    })
}
