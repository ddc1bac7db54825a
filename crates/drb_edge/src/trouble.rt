// What stands in the way of the next connection.
use std::io::Error;

/// What an error of an accept is of.
#[derive(Clone, Copy, Debug, PartialEq, Eq)]
pub(crate) enum Trouble {
    /// The connection that would have come. The next one may be taken.
    Connection,
    /// Of descriptors or memory there are none now.
    Shortage,
    /// No connection can be taken any more.
    Listener,
}

/// What the error is of.
///
/// Source: Linux's accept(2), "Error handling" and "Errors".
pub(crate) fn trouble_of(error: &Error) -> Trouble {
    match error.raw_os_error() {
        // ENOMEM, ENFILE, EMFILE, ENOSR, ENOBUFS
        Some(12 | 23 | 24 | 63 | 105) => Trouble::Shortage,
        // EPERM (a firewall's rule), EINTR, EAGAIN, ENONET, EPROTO, ENOPROTOOPT, EPROTONOSUPPORT, ESOCKTNOSUPPORT,
        // EOPNOTSUPP, ENETDOWN, ENETUNREACH, ECONNABORTED, ECONNRESET, ETIMEDOUT, EHOSTDOWN, EHOSTUNREACH
        Some(1 | 4 | 11 | 64 | 71 | 92..=95 | 100 | 101 | 103 | 104 | 110 | 112 | 113) => {
            Trouble::Connection
        }
        _ => Trouble::Listener,
    }
}
