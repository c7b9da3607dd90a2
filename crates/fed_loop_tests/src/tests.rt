// Two servers over sockets of the loopback interface, and where these fail.
use fed_loop::{Counts, Load, LoopFault, loop_run};
use std::alloc::Global;
use std::io;
use std::io::ErrorKind;
use std::net::{Net, SocketAddr, TcpListener, TcpStream};
use std::sync::Wait;
use std::sync::atomic::{AtomicU64, Ordering};
use std::test::*;
use std::thread::Threads;
use std::time::{Clock, Duration};

// How a load of so many events and clients ends.
fn ended<R>(rt: &R, alloc: Global, events: u64, clients: u64) -> Option<Result<Counts, LoopFault>>
where
    R: Threads + Wait + Clock + Net<Stream = TcpStream, Listener = TcpListener> + Sync,
{
    Some(loop_run(rt, alloc, Load::new(events, clients)?))
}

// All of so many events.
fn all(count: u64) -> Option<Result<Counts, LoopFault>> {
    Some(Ok(Counts {
        sent: count,
        taken: count,
        delivered: count,
    }))
}

#[test]
fn events_come_to_the_other_server(rt: HostRuntime) {
    let alloc = rt.alloc();
    assert_eq!(rt; ended(&rt, alloc, 120, 3), all(120));
    assert_eq!(rt; ended(&rt, alloc, 1, 8), all(1));
    assert_eq!(rt; ended(&rt, alloc, 60, 1), all(60));
    assert_eq!(rt; ended(&rt, alloc, 0, 3), None);
    assert_eq!(rt; ended(&rt, alloc, 120, 9), None);
}

// A runtime whose sockets can't be bound, or not be connected, or of which the one after so many is not connected in time.
#[derive(Drop)]
struct Broken<'a, R> {
    rt: &'a R,
    binds: bool,
    connects: bool,
    in_time: u64,
    made: AtomicU64,
}

impl<R: Threads> Threads for Broken<'_, R> {}

impl<R: Wait> Wait for Broken<'_, R> {}

impl<R: Clock> Clock for Broken<'_, R> {
    fn monotonic(&self) -> io::Result<Duration> {
        self.rt.monotonic()
    }

    fn since_1970(&self) -> io::Result<Duration> {
        self.rt.since_1970()
    }

    fn sleep(&self, duration: Duration) {
        self.rt.sleep(duration)
    }
}

impl<R: Net> Net for Broken<'_, R> {
    type Stream = R::Stream;

    type Listener = R::Listener;

    fn bind(&self, addr: SocketAddr) -> io::Result<R::Listener> {
        if self.binds {
            return self.rt.bind(addr);
        }
        Err(io::Error::from(ErrorKind::PermissionDenied))
    }

    fn connect(&self, addr: SocketAddr) -> io::Result<R::Stream> {
        if self.connects {
            return self.rt.connect(addr);
        }
        Err(io::Error::from(ErrorKind::ConnectionRefused))
    }

    fn connect_timeout(&self, addr: SocketAddr, timeout: Duration) -> io::Result<R::Stream> {
        if self.made.fetch_add(1, Ordering::SeqCst) != self.in_time {
            return self.rt.connect_timeout(addr, timeout);
        }
        Err(io::Error::from(ErrorKind::TimedOut))
    }
}

// How 120 events of 3 clients end by such a runtime.
fn ended_by<R>(
    rt: &R,
    alloc: Global,
    binds: bool,
    connects: bool,
    in_time: u64,
) -> Option<Result<Counts, LoopFault>>
where
    R: Threads + Wait + Clock + Net<Stream = TcpStream, Listener = TcpListener> + Sync,
{
    let rt = Broken {
        rt,
        binds,
        connects,
        in_time,
        made: AtomicU64::new(0),
    };
    ended(&rt, alloc, 120, 3)
}

#[test]
fn sockets_fail(rt: HostRuntime) {
    let alloc = rt.alloc();
    let failed = Some(Err(LoopFault::Io));
    assert_eq!(rt; ended_by(&rt, alloc, false, true, u64::MAX), failed);
    assert_eq!(rt; ended_by(&rt, alloc, true, false, u64::MAX), failed);
    assert_eq!(rt; ended_by(&rt, alloc, true, true, 0), failed);
    assert_eq!(rt; ended_by(&rt, alloc, true, true, 1), failed);
    assert_eq!(rt; ended_by(&rt, alloc, true, true, u64::MAX), all(120));
}

#[test]
fn counts_are_told_in_lines(rt: HostRuntime) -> Result<(), Fail> {
    let counts = Counts {
        sent: 3,
        taken: 2,
        delivered: 1,
    };
    let told = counts.to_string(rt.alloc())?;
    assert_eq!(rt; told.as_str(), "sent 3\ntaken 2\ndelivered 1\n");
    Ok(())
}
