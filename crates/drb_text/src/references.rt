//! References to remote objects.

ghost use Rattle.std.specs.Prelude.{◌≡◌, ◌≤◌, length, Ok, Err, MatchResult, IfOk};
ghost use Rattle.std.specs.List.{prefix_len};
ghost use Rattle.drb_text.specs.Bytes.{is_uri};
ghost use Rattle.drb_text.specs.References.{id, id_behind, reference};
ghost use Rattle.drb_text.specs.Told.{ReadsAs, StuckAt, Faults};

use crate::fault::{Fault, Stuck};
use crate::numbers::read_int;
use crate::pieces::{begins, expect, is_uri};
use drb_value::{Code, RefId, Remote, Text};
use std::alloc::Global;

/// The reference, and what stands behind it.
#[tactic(auto, unfolding(crate::specs::References::reference))]
pub(crate) fn read_reference(alloc: Global, bytes: &[u8]) -> Result<(Remote, &[u8]), Fault>
    ensures { MatchResult result
        (λ r. ReadsAs (reference bytes.now) bytes.now r.0 r.1.now)
        (λ f. Faults (reference bytes.now) bytes.now f) }
{
    let (uri, rest) = bytes.split_at(uri_len(bytes));
    let (id, rest) = read_end(rest)?;
    let uri = Text::of(alloc, uri, Code::Utf8)?;
    Ok((Remote { uri, id }, rest))
}

/// The id behind a space and before `>`, and what stands behind that.
fn read_end(bytes: &[u8]) -> Result<(RefId, &[u8]), Stuck>
    ensures { MatchResult result
        (λ r. ReadsAs (id_behind bytes.now) bytes.now r.0 r.1.now)
        (λ e. StuckAt (id_behind bytes.now) bytes.now e.left) }
{
    let rest = expect(b" ", bytes)?;
    let (id, rest) = read_id(rest)?;
    let rest = expect(b">", rest)?;
    Ok((id, rest))
}

/// An id, and what stands behind it.
fn read_id(bytes: &[u8]) -> Result<(RefId, &[u8]), Stuck>
    ensures { MatchResult result
        (λ r. ReadsAs (id bytes.now) bytes.now r.0 r.1.now)
        (λ e. StuckAt (id bytes.now) bytes.now e.left) }
{
    if begins(b'n', bytes) {
        let rest = expect(b"nil", bytes)?;
        return Ok((RefId::Front, rest));
    }
    let (number, rest) = read_int(bytes)?;
    Ok((RefId::Number(number), rest))
}

/// How many bytes of a uri there are.
fn uri_len(bytes: &[u8]) -> usize
    ensures exact { result ≡ prefix_len is_uri bytes.now }
    ensures within { result ≤ length bytes.now }
{
    match bytes.iter().position(|b| !is_uri(*b)) {
        Some(end) => end,
        None => bytes.len(),
    }
}
