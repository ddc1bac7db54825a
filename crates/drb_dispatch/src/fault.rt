//! Which check a request fails.

ghost use Rattle.std.specs.Prelude.{◌≡◌, IfOk};
ghost use Rattle.drb_ref.specs.Causes.{raised};
ghost use Rattle.drb_dispatch.specs.Faults.{raised_by, exception_by};

use drb_ref::{Cause, exception_of};
use drb_value::Value;
use std::alloc::{AllocError, Global};

/// The first check that a request fails.
///
/// Source: docs/SESSIONS.md, Dispatch.
#[derive(Clone, Copy, Debug, PartialEq, Eq)]
pub enum Fault {
    /// The method is `__send__`.
    Insecure,
    /// The reference is neither nil nor the number of an id.
    NotAnId,
    /// The object has no method of the name.
    NoMethod,
    /// So many arguments were given, and the method takes `least` to `most`.
    WrongCount {
        given: usize,
        least: usize,
        most: usize,
    },
    /// What stands for a tuple is neither an array nor a hash.
    NotATuple,
    /// What stands for a tuple is a hash with a key that is no text.
    BadKey,
    /// The port is neither nil nor a reference.
    BadPort,
}

impl Fault {
    /// The cause that a request of this method fails for.
    fn cause<'a>(self, name: &'a [u8]) -> Cause<'a>
        ensures { raised result ≡ raised_by name.now self }
    {
        match self {
            Fault::Insecure => Cause::Insecure,
            Fault::NotAnId => Cause::NotAnId,
            Fault::NoMethod => Cause::NoMethod(name),
            Fault::WrongCount { given, least, most } => Cause::WrongCount { given, least, most },
            Fault::NotATuple => Cause::NotATuple,
            Fault::BadKey => Cause::BadKey,
            Fault::BadPort => Cause::BadPort,
        }
    }

    /// The exception that tells of the fault in a request of the method of this name.
    ///
    /// Errors: only want of memory.
    /// Source: docs/WIRE.md, Exceptions.
    pub fn exception(self, alloc: Global, name: &[u8]) -> Result<Value, AllocError>
        ensures { IfOk result (λ value. value ≡ exception_by name.now self) }
    {
        exception_of(alloc, &self.cause(name))
    }
}
