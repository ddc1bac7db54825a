//! A history into a sink.

ghost use Rattle.std.specs.Prelude.{◌≡◌, ℕ, OnOk, OnErr, Err, IsErrOf, All};
ghost use Rattle.drb_outside.specs.Told.{Rose};
ghost use Rattle.drb_outside.specs.Changes.{ChangesBytes};
ghost use Rattle.rinda_journal.specs.Texts.{HasText, TurnKept};
ghost use Rattle.rinda_journal.specs.Histories.{GivesHistory, FirstWithout, GivesText, GivesTurn, Refuses};

use crate::{HistoryError, TurnTextError, write_turn};
use drb_outside::Sink;
use drb_packet::write_all;
use rinda_rules::{Journal, Turn, VecJournal};
use std::alloc::Global;

/// Writes these bytes.
fn write_text<K: Sink>(text: &[u8], out: &mut K) -> Result<(), HistoryError>
    ensures sink { ChangesBytes K.given K.stays K.holds K.faults out.old out.new
        (GivesText text.now result) }
    ensures failed { IsErrOf result HistoryError.WriteFault →
        Rose (K.faults out.old) (K.faults out.new) }
    ensures fault { OnErr result (result ≡ Err HistoryError.WriteFault) }
{
    if write_all(out, text) {
        Ok(())
    } else {
        Err(HistoryError::WriteFault)
    }
}

/// Writes the text of a turn, the one of that number.
fn write_one<K: Sink>(
    alloc: Global,
    turn: &Turn,
    number: u64,
    out: &mut K,
) -> Result<(), HistoryError>
    ensures sink { ChangesBytes K.given K.stays K.holds K.faults out.old out.new
        (GivesTurn turn.now result) }
    ensures has { OnOk result (HasText turn.now) }
    ensures kept { OnOk result (TurnKept turn.now) }
    ensures refuses { Refuses turn.now number result }
    ensures failed { IsErrOf result HistoryError.WriteFault →
        Rose (K.faults out.old) (K.faults out.new) }
{
    let mut text = Vec::new(alloc);
    match write_turn(alloc, turn, &mut text) {
        Ok(()) => write_text(text.as_slice(), out),
        Err(TurnTextError::DoesNotFit) => Err(HistoryError::DoesNotFit { turn: number }),
        Err(TurnTextError::Memory) => Err(HistoryError::Memory),
    }
}

/// Writes the texts of all turns of a journal, in order.
///
/// Errors: `DoesNotFit` for the first turn that has no text, by its number from 1; the texts of the turns before it were
/// written. `WriteFault` only where the sink's own count of faults rose; a front of the texts was written. `Memory` at any
/// time; the texts of the first turns were written.
/// Source: docs/JOURNAL.md, Histories.
pub fn write_history<K: Sink>(
    alloc: Global,
    journal: &VecJournal,
    out: &mut K,
) -> Result<(), HistoryError>
    ensures sink { ChangesBytes K.given K.stays K.holds K.faults out.old out.new
        (GivesHistory journal.now.turns result) }
    ensures all { OnOk result (All HasText journal.now.turns) }
    ensures kept { OnOk result (All TurnKept journal.now.turns) }
    ensures does_not_fit { (turn : ℕ) → result ≡ Err (HistoryError.DoesNotFit turn) →
        FirstWithout journal.now.turns turn }
    ensures failed { IsErrOf result HistoryError.WriteFault →
        Rose (K.faults out.old) (K.faults out.new) }
{
    let len = journal.len();
    let mut count = 0;
    while count < len {
        let turn = journal.turn(count).unwrap();
        write_one(alloc, turn, count + 1, out)?;
        count += 1;
    }
    Ok(())
}
