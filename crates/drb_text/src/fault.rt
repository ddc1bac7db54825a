//! Why a piece of a text is not read.

use drb_value::{NameError, PairError};
use std::alloc::AllocError;

/// Nothing can go on where so many bytes are left.
#[derive(Clone, Copy)]
pub(crate) struct Stuck {
    pub left: usize,
}

/// Nothing can go on where so many bytes are left, or there was no memory.
#[derive(Clone, Copy)]
pub(crate) enum Fault {
    Stuck { left: usize },
    Memory,
}

impl From<Stuck> for Fault {
    ghost use Rattle.std.specs.Prelude.{◌≡◌};
    ghost use Rattle.drb_text.specs.declared.fault.Fault.TheVariants.{Stuck as Is};

    ghost from_gives = { λ s f. f ≡ Is s.left };

    fn from(stuck: Stuck) -> Fault {
        Fault::Stuck { left: stuck.left }
    }
}

impl From<AllocError> for Fault {
    ghost use Rattle.std.specs.Prelude.{◌≡◌};
    ghost use Rattle.drb_text.specs.declared.fault.Fault.TheVariants.{Memory};

    ghost from_gives = { λ _ f. f ≡ Memory };

    fn from(_: AllocError) -> Fault {
        Fault::Memory
    }
}
