// Doors that take TCP connections.
ghost use Rattle.std.specs.Prelude.{◌≡◌, None, IfOk};
ghost use Rattle.std.specs.Net.Socket.{socket_ip};
ghost use Rattle.drb_edge.specs.Peers.{IsPeerOf, number_of};

use crate::tcp_dialer::{TcpDialer, bare};
use crate::tcp_line::{TcpSink, TcpSource};
use crate::trouble::{Trouble, trouble_of};
use crate::wall_clock::WallClock;
use drb_doors::{Doors, Guest, PeerSource};
use drb_outside::{Buffered, Failed};
use std::alloc::Global;
use std::net::{IpAddr, Net, SocketAddr, TcpListener, TcpStream};
use std::rt::Clock;
use std::sync::{Arc, Wait};
use std::time::Duration;
use std::{io, thread};

/// After how many milliseconds of a shortage the next connection is tried.
const SHORTAGE_MILLIS: u64 = 50;

/// One who came over TCP. The dialer has no patience: see `TcpDialer::new`.
pub type TcpGuest<'a, R> = Guest<
    PeerSource<Buffered<TcpSource<'a, R>>>,
    TcpSink,
    WallClock<'a, R>,
    TcpDialer<'a, R>,
>;

/// Doors that take TCP connections. They never end: see `drb_doors::Limited`.
#[derive(Drop)]
pub struct TcpDoors<'a, R> {
    rt: &'a R,
    alloc: Global,
    listener: TcpListener,
    port: u16,
    faults: u64,
}

impl<'a, R: Net<Listener = TcpListener, Stream = TcpStream>> TcpDoors<'a, R> {
    /// Listens at that host and port. The system picks the port where it is 0.
    ///
    /// The host is an IPv4 address, an IPv6 address, in brackets or not, or a name that the system looks up. `0.0.0.0` is
    /// every IPv4 address of this machine, and `[::]` every address. Errors: those of the system.
    pub fn bind(rt: &'a R, alloc: Global, host: &str, port: u16) -> io::Result<TcpDoors<'a, R>>
        ensures { IfOk result (λ doors. doors.faults ≡ 0) }
    {
        let listener = TcpListener::bind(rt, (bare(host), port))?;
        let port = listener.local_addr()?.port();
        Ok(TcpDoors {
            rt,
            alloc,
            listener,
            port,
            faults: 0,
        })
    }

    /// The port at which they listen, also where the system picked it.
    pub fn port(&self) -> u16
        ensures { result ≡ self.now.port }
    {
        self.port
    }
}

/// Who the peer at an address is: its IPv4 address as a number, also where an IPv6 address stands for it, or None.
#[tactic(auto, using(crate::proofs::Peerings::peer_is))]
pub fn peer_of(from: &SocketAddr) -> Option<u32>
    ensures { IsPeerOf (socket_ip from.now) result }
{
    number_of(from.ip().to_canonical())
}

/// An IPv4 address as a number.
fn number_of(ip: IpAddr) -> Option<u32>
    ensures { result ≡ number_of ip }
{
    match ip {
        IpAddr::V4(address) => Some(address.to_bits()),
        IpAddr::V6(_) => None,
    }
}

/// The guest of a connection; None for want of memory.
fn guest_of<'a, R: Net<Stream = TcpStream> + Clock + Eprint>(
    rt: &'a R,
    alloc: Global,
    stream: TcpStream,
    from: &SocketAddr,
) -> Option<TcpGuest<'a, R>> {
    // without the option it is slower, and no worse
    let _slower = stream.set_nodelay(true);
    let stream = Arc::new(alloc, stream).ok()?;
    let output = TcpSink::new(Arc::try_clone(&stream).ok()?);
    let source = Buffered::new(alloc, TcpSource::new(rt, stream)).ok()?;
    Some(Guest {
        input: PeerSource {
            source,
            peer: peer_of(from),
        },
        output,
        clock: WallClock::new(rt),
        dialer: TcpDialer::new(rt, None),
    })
}

impl<'a, R: Net<Listener = TcpListener, Stream = TcpStream> + Clock + Wait + Eprint + Sync> Doors
    for TcpDoors<'a, R> {
    type In = PeerSource<Buffered<TcpSource<'a, R>>>;

    type Out = TcpSink;

    type Time = WallClock<'a, R>;

    type Calls = TcpDialer<'a, R>;

    ghost guests = { λ _. None };

    ghost faults = { λ d. d.faults };

    ghost ends = { λ _. 0 };

    /// Waits for the next connection, and sets TCP_NODELAY on it.
    ///
    /// A connection that was gone before it was taken is passed over. Where there are no descriptors or no memory, that
    /// is told once and waited out, with a try each 50 milliseconds; a connection for which there is no memory is
    /// closed. `Failed` is a listener that takes no more, told in one line on standard error.
    fn accept(&mut self) -> Result<Option<TcpGuest<'a, R>>, Failed> {
        let mut short = false;
        for _ in self.rt.forever() {
            match self.listener.accept() {
                Ok((stream, from)) => {
                    if let Some(guest) = guest_of(self.rt, self.alloc, stream, &from) {
                        return Ok(Some(guest));
                    }
                    thread::sleep(self.rt, Duration::from_millis(SHORTAGE_MILLIS));
                }
                Err(error) => match trouble_of(&error) {
                    Trouble::Connection => {}
                    Trouble::Shortage => {
                        if !short {
                            let _untold = eprintln!(self.rt; "accept: {error}");
                        }
                        short = true;
                        thread::sleep(self.rt, Duration::from_millis(SHORTAGE_MILLIS));
                    }
                    Trouble::Listener => {
                        let _untold = eprintln!(self.rt; "accept: {error}");
                        self.faults = self.faults.saturating_add(1);
                        return Err(Failed);
                    }
                },
            }
        }
        unreachable!()
    }
}
