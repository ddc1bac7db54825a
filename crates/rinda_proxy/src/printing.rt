//! Answers as they are printed.

ghost use Rattle.std.specs.Prelude.{◌≡◌, Some, true};
ghost use Rattle.rinda_proxy.specs.Parts.{Tells};

use crate::status::Status;
use drb_outside::Sink;
use drb_packet::write_all;

/// Prints the text of an answer after which nothing is asked, and says how the command ends: as the answer decides.
pub(crate) fn tell_last<K: Sink>(output: &mut K, text: &[u8], decided: Option<Status>) -> Status
    ensures { Tells true decided text.now (Some result) (K.given output.old) (K.given output.new)
        (K.faults output.old) (K.faults output.new) }
{
    if write_all(output, text) {
        decided.unwrap_or(Status::Done)
    } else {
        decided.unwrap_or(Status::WriteFault)
    }
}

/// Prints the text of an answer. None where more may be asked.
pub(crate) fn tell<K: Sink>(
    output: &mut K,
    text: &[u8],
    decided: Option<Status>,
    over: bool,
) -> Option<Status>
    ensures { Tells over decided text.now result (K.given output.old) (K.given output.new)
        (K.faults output.old) (K.faults output.new) }
{
    if over {
        return Some(tell_last(output, text, decided));
    }
    if write_all(output, text) {
        None
    } else {
        Some(decided.unwrap_or(Status::WriteFault))
    }
}
