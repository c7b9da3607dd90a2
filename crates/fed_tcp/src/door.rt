// Where a server serves.
use crate::connector::Connector;
use std::io::{self, ErrorKind};
use std::net::{Net, SocketAddr, TcpListener, TcpStream};
use std::sync::Wait;
use std::sync::atomic::{AtomicBool, Ordering};
use std::thread;
use std::time::{Clock, Duration};

/// How many milliseconds pass before a connection is tried again, and for how many one is waited for.
const PAUSE: u64 = 10;

const KNOCK: u64 = 1000;

/// Where a server serves: what accepts connections, its address, and a flag that says that it is closed.
#[derive(Drop)]
pub struct Door {
    pub(crate) listener: TcpListener,
    address: SocketAddr,
    closed: AtomicBool,
}

impl Door {
    /// A door at an address of this machine. One connection is made before any thread waits for one, so that a door that can't be closed isn't
    /// opened.
    ///
    /// # Errors
    ///
    /// That of the socket.
    pub fn open<R>(rt: &R, address: SocketAddr) -> io::Result<Door>
    where
        R: Net<Stream = TcpStream, Listener = TcpListener>,
    {
        let listener = TcpListener::bind(rt, address)?;
        let address = listener.local_addr()?;
        let _client = TcpStream::connect(rt, address)?;
        listener.accept()?;
        Ok(Door {
            listener,
            address,
            closed: AtomicBool::new(false),
        })
    }

    /// Its address, with the port that the system picked where none was named.
    pub fn address(&self) -> SocketAddr {
        self.address
    }

    /// Whether it is closed.
    pub fn is_closed(&self) -> bool {
        self.closed.load(Ordering::SeqCst)
    }

    /// Closes it, and makes one more connection, so that a thread that waits for one is told. Who is told calls this too, and so tells the next.
    /// Where no connection can be made it is tried again; but where it takes too long, so many others wait to be accepted that no thread waits for one.
    pub fn close<R: Wait + Clock + Connector>(&self, rt: &R) {
        self.closed.store(true, Ordering::SeqCst);
        for _ in rt.forever() {
            match rt.connect_within(self.address, Duration::from_millis(KNOCK)) {
                Ok(_) => return,
                Err(error) => {
                    if error.kind() == ErrorKind::TimedOut {
                        return;
                    }
                }
            }
            thread::sleep(rt, Duration::from_millis(PAUSE));
        }
    }
}
