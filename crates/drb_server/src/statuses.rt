//! The statuses of the command `serve`.

ghost use Rattle.std.specs.Prelude.{◌≡◌};
ghost use Rattle.drb_server.specs.Statuses.{words_status, list_status, served_status, logged_status};

use clap::error::ErrorKind;
use drb_acl::AclError;
use drb_logged::Logged;
use drb_serving::Served;

/// The status where clap has a text for the user.
pub fn words_status(kind: ErrorKind) -> u8
    ensures { result ≡ words_status kind }
{
    match kind {
        ErrorKind::DisplayHelp => 0,
        ErrorKind::OutOfMemory => 7,
        _ => 1,
    }
}

/// The status where the file has no access list.
pub fn list_status(error: AclError) -> u8
    ensures { result ≡ list_status error }
{
    match error {
        AclError::Memory => 7,
        _ => 1,
    }
}

/// The status where it has served.
pub fn served_status(served: &Served) -> u8
    ensures { result ≡ served_status served.now }
{
    match served {
        Served::Done { .. } => 0,
        Served::AcceptFault { .. } => 8,
        Served::Memory => 7,
    }
}

/// The status where it has served and written the history.
pub fn logged_status(logged: &Logged) -> u8
    ensures { result ≡ logged_status logged.now }
{
    match logged {
        Logged::Served(served) => served_status(served),
        Logged::DoesNotFit { .. } => 12,
        Logged::WriteFault => 5,
    }
}
