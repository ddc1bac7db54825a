//! Turns into their texts.

ghost use Rattle.std.specs.Prelude.{◌≡◌, ◌++◌, OnOk, OnErr, Err, IfOk, ◌↔◌, IsTrue, All};
ghost use Rattle.drb_tree.specs.Kept.{Fits};
ghost use Rattle.rinda_journal.specs.Heads.{event_values};
ghost use Rattle.rinda_journal.specs.Texts.{turn_text, turn_parts as turn_parts_spec, HasText, TurnKept};
ghost use Rattle.rinda_journal.specs.Writes.{Adds};

use crate::TurnTextError;
use crate::events::holds_event;
use crate::kept::note_turn;
use crate::packet::put_packets;
use crate::values::{put_event_values, turn_parts};
use drb_value::{Items, Value, fits};
use rinda_rules::{Event, Turn};
use std::alloc::{AllocError, Global};

/// Appends the packets of a turn's parts. At an error the bytes that were there stand in front.
fn put_parts(alloc: Global, turn: &Turn, out: &mut Vec<u8>) -> Result<(), TurnTextError>
    ensures { Adds (turn_parts_spec turn.now) result out.old.items out.new.items }
{
    let parts = turn_parts(alloc, turn)?;
    put_packets(parts.as_slice(), out)
}

/// Appends the text of a turn.
///
/// Errors: `DoesNotFit` exactly where the turn has no text: its head or one of its values does not fit into a dump, or
/// its answer is an Event that is no event of the rules. `Memory` at any time. At an error `out` has the bytes that it
/// had; only its capacity may have grown.
/// Source: docs/JOURNAL.md.
pub fn write_turn(alloc: Global, turn: &Turn, out: &mut Vec<u8>) -> Result<(), TurnTextError>
    ensures written { OnOk result (out.new.items ≡ out.old.items ++ turn_text turn.now) }
    ensures has { OnOk result (HasText turn.now) }
    ensures kept { OnOk result (TurnKept turn.now) }
    ensures does_not_fit { result ≡ Err TurnTextError.DoesNotFit → HasText turn.now → ⊥ }
    ensures unchanged { OnErr result (out.new.items ≡ out.old.items) }
{
    if !holds_event(&turn.out) {
        return Err(TurnTextError::DoesNotFit);
    }
    note_turn(turn);
    let start = out.len();
    match put_parts(alloc, turn, out) {
        Ok(()) => Ok(()),
        Err(error) => {
            out.truncate(start);
            Err(error)
        }
    }
}

/// Each of these values fits into a dump.
fn all_fit(values: &[Value]) -> bool
    ensures { IsTrue result ↔ All Fits values.now }
{
    for value in values {
        if !fits(value) {
            return false;
        }
    }
    true
}

/// Whether each value of the event fits into a dump.
///
/// Errors: only want of memory, for a copy of the values.
/// Source: docs/JOURNAL.md, Which turns have a text.
pub fn event_fits(alloc: Global, event: &Event) -> Result<bool, AllocError>
    ensures { IfOk result (λ b. IsTrue b ↔ All Fits (event_values event.now)) }
{
    let mut values = Items::new(alloc);
    put_event_values(alloc, event, &mut values)?;
    Ok(all_fit(values.as_slice()))
}
