// Calls over TCP.
ghost use Rattle.std.specs.Prelude.{◌≡◌, None};

use crate::again::{read_again, write_again};
use drb_outside::{Address, Dialer, Failed};
use std::io::{Error, ErrorKind};
use std::net::{Net, TcpStream, ToSocketAddrs};
use std::rt::Clock;
use std::time::{Duration, Instant};
use std::{io, str};

/// How many seconds the peer of a dial has to answer.
const DIAL_SECONDS: u64 = 5;

/// A dialer that makes TCP connections.
///
/// A host is an IPv4 address, an IPv6 address in brackets, or a name that the system looks up. Five seconds after a dial
/// began no further address of the host is waited for; the look-up itself takes its time. A dial that fails is told in
/// one line on standard error. A call has TCP_NODELAY on.
#[derive(Drop)]
pub struct TcpDialer<'a, R> {
    rt: &'a R,
    patience: Option<Duration>,
    stream: Option<TcpStream>,
    faults: u64,
}

impl<'a, R: Net<Stream = TcpStream> + Clock + Eprint> TcpDialer<'a, R> {
    /// A dialer with no call up.
    ///
    /// With a patience a send or a receive that takes longer fails, and with one of zero each dial. Without one they wait
    /// for as long as the peer does.
    pub fn new(rt: &'a R, patience: Option<Duration>) -> TcpDialer<'a, R>
        ensures { result.faults ≡ 0 }
    {
        TcpDialer {
            rt,
            patience,
            stream: None,
            faults: 0,
        }
    }
}

/// A host without the brackets of an IPv6 address.
pub(crate) fn bare(host: &str) -> &str {
    match host.strip_prefix('[') {
        Some(rest) => rest.strip_suffix(']').unwrap_or(host),
        None => host,
    }
}

/// A connection, with TCP_NODELAY on.
fn connect<R: Net<Stream = TcpStream> + Clock>(
    rt: &R,
    to: &Address<'_>,
    patience: Option<Duration>,
) -> io::Result<TcpStream> {
    let Ok(host) = str::from_utf8(to.host) else {
        return Err(Error::from(ErrorKind::InvalidInput));
    };
    let start = Instant::now(rt)?;
    let mut last = Error::from(ErrorKind::AddrNotAvailable);
    for address in (bare(host), to.port).to_socket_addrs(rt)? {
        let left = Duration::from_secs(DIAL_SECONDS).saturating_sub(start.elapsed(rt)?);
        if left.is_zero() {
            return Err(Error::from(ErrorKind::TimedOut));
        }
        match TcpStream::connect_timeout(rt, &address, left) {
            Ok(stream) => {
                stream.set_nodelay(true)?;
                stream.set_read_timeout(patience)?;
                stream.set_write_timeout(patience)?;
                return Ok(stream);
            }
            Err(error) => last = error,
        }
    }
    Err(last)
}

impl<'a, R: Net<Stream = TcpStream> + Clock + Eprint> Dialer for TcpDialer<'a, R> {
    ghost calls = { λ _. None };

    ghost faults = { λ d. d.faults };

    fn dial(&mut self, to: &Address<'_>) -> Result<(), Failed> {
        self.stream = None;
        match connect(self.rt, to, self.patience) {
            Ok(stream) => {
                self.stream = Some(stream);
                Ok(())
            }
            Err(error) => {
                let host = str::from_utf8(to.host).unwrap_or("?");
                let _untold = eprintln!(self.rt; "dial {host:?}, port {}: {error}", to.port);
                self.faults = self.faults.saturating_add(1);
                Err(Failed)
            }
        }
    }

    fn send(&mut self, piece: &[u8]) -> Result<usize, Failed> {
        if let Some(stream) = &mut self.stream {
            if let Ok(count) = write_again(stream, piece) {
                return Ok(count);
            }
        }
        self.faults = self.faults.saturating_add(1);
        Err(Failed)
    }

    fn receive(&mut self, buf: &mut [u8]) -> Result<usize, Failed> {
        if let Some(stream) = &mut self.stream {
            if let Ok(count) = read_again(stream, buf) {
                return Ok(count);
            }
        }
        self.faults = self.faults.saturating_add(1);
        Err(Failed)
    }

    fn hang_up(&mut self) {
        self.stream = None;
    }
}
