//! A turn at a place of bytes.

ghost use Rattle.std.specs.Prelude.{ℕ, ◌≤◌, length, IfOk};
ghost use Rattle.rinda_rules.specs.declared.turn.Turn.{Turn};
ghost use Rattle.rinda_journal.specs.Parsers.{Finds};
ghost use Rattle.rinda_journal.specs.Reading.{turn_in};
ghost use Rattle.rinda_journal.specs.Texts.{TextAt};
ghost use Rattle.rinda_journal.specs.Fronts.{HeadIs, Confirms, IsOrLacksMemory};

use crate::cursor::Cursor;
use crate::field::Field;
use crate::fields_at::fields_at;
use crate::packet_at::packet_at;
use crate::reading::turn;
use crate::{ReadTurnError, TurnTextError, write_turn};
use drb_value::Items;
use rinda_rules::Turn;
use std::alloc::Global;

/// The fields of the head at the front of the bytes, and what follows it.
fn head_at(alloc: Global, bytes: &[u8]) -> Result<(Items<Field>, &[u8]), ReadTurnError>
    ensures { HeadIs bytes.now result }
{
    let (head, rest) = packet_at(alloc, bytes)?;
    match fields_at(alloc, &head) {
        Ok(fields) => Ok((fields, rest)),
        Err(error) => {
            drop(head);
            Err(error)
        }
    }
}

/// The turn that the bytes tell, if they begin with a text.
fn turn_told(alloc: Global, bytes: &[u8]) -> Result<Turn, ReadTurnError>
    ensures { Finds (turn_in bytes.now) result }
{
    let (fields, rest) = head_at(alloc, bytes)?;
    let mut cursor = Cursor::new(fields.as_slice(), rest);
    turn(&mut cursor, alloc)
}

/// How long the text of the turn is, where the bytes begin with it.
fn text_len(alloc: Global, turn: &Turn, bytes: &[u8]) -> Result<usize, ReadTurnError>
    ensures { Confirms turn.now bytes.now result }
{
    let mut text = Vec::new(alloc);
    match write_turn(alloc, turn, &mut text) {
        Ok(()) => {}
        Err(TurnTextError::DoesNotFit) => return Err(ReadTurnError::NotATurn),
        Err(TurnTextError::Memory) => return Err(ReadTurnError::Memory),
    }
    if bytes.starts_with(text.as_slice()) {
        Ok(text.len())
    } else {
        Err(ReadTurnError::NotATurn)
    }
}

/// The turn at the front of the bytes, and how long its text is.
fn turn_first(alloc: Global, bytes: &[u8]) -> Result<(Turn, usize), ReadTurnError>
    ensures turn { IfOk result (λ r. TextAt bytes.now 0 r.0 r.1) }
    ensures every_turn { (t : Turn) (n : ℕ) → TextAt bytes.now 0 t n →
        IsOrLacksMemory (Ok (t, n)) result }
{
    let turn = turn_told(alloc, bytes)?;
    match text_len(alloc, &turn, bytes) {
        Ok(size) => Ok((turn, size)),
        Err(error) => {
            drop(turn);
            Err(error)
        }
    }
}

/// The turn whose text begins at the place `at`, and the place after that text.
///
/// Both places count bytes from the front. What follows the text is ignored.
/// Errors: `NotATurn` exactly where the text of no turn begins there; `Memory` at any time.
/// Source: docs/JOURNAL.md, Reading.
pub fn read_turn(alloc: Global, bytes: &[u8], at: usize) -> Result<(Turn, usize), ReadTurnError>
    requires { at ≤ length bytes.now }
    ensures turn { IfOk result (λ r. TextAt bytes.now at r.0 r.1) }
    ensures every_turn { (t : Turn) (n : ℕ) → TextAt bytes.now at t n →
        IsOrLacksMemory (Ok (t, n)) result }
{
    match turn_first(alloc, &bytes[at..]) {
        Ok((turn, size)) => Ok((turn, at + size)),
        Err(error) => Err(error),
    }
}
