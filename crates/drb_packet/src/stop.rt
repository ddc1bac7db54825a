//! Why a reading goes no further.

use crate::{PacketError, PacketRefusal};
use std::alloc::AllocError;

/// Why a reading goes no further.
#[derive(Clone, Copy, Debug, PartialEq, Eq)]
pub enum Stop {
    /// The input has ended before the first byte.
    End,
    Refused(PacketRefusal),
    /// The source failed, and counted it.
    ReadFault,
    Memory,
}

impl From<AllocError> for Stop {
    ghost use Rattle.std.specs.Prelude.{◌≡◌};
    ghost use Rattle.drb_packet.specs.declared.stop.Stop.TheVariants.{Memory};

    ghost from_gives = { λ _ e. e ≡ Memory };

    fn from(_: AllocError) -> Stop {
        Stop::Memory
    }
}

impl From<PacketError> for Stop {
    ghost use Rattle.std.specs.Prelude.{◌≡◌};
    ghost use Rattle.drb_packet.specs.Stops.{stop_of};

    ghost from_gives = { λ error e. e ≡ stop_of error };

    fn from(error: PacketError) -> Stop {
        match error {
            PacketError::ReadFault => Stop::ReadFault,
            PacketError::Memory => Stop::Memory,
        }
    }
}
