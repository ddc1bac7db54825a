//! Serving, and then the text of the history.

ghost use Rattle.std.specs.Prelude.{◌≡◌, ◌≤◌, true};
ghost use Rattle.drb_outside.specs.Told.{Rose};
ghost use Rattle.drb_outside.specs.Changes.{ChangesBytes};
ghost use Rattle.drb_serving.specs.Serving.{outside};
ghost use Rattle.drb_logged.specs.Logging.{IsLogged, Logs, Kept};

use drb_doors::Doors;
use drb_outside::{Clock, Dialer, Sink};
use drb_serving::{Gate, Served, Settings, serve_run};
use rinda_journal::{HistoryError, write_history};
use rinda_marks::Secret;
use rinda_rules::VecJournal;
use rinda_space::Space;
use std::alloc::Global;
use std::sync::Wait;
use std::thread::Threads;

/// What serving and writing the history came to.
#[derive(Clone, Copy, Debug, PartialEq, Eq)]
pub enum Logged {
    /// Guests were served, and all turns were written; but for `Served::Memory`, where there is no space.
    Served(Served),
    /// The turn with this number, from 1, has no text; all before it were written.
    DoesNotFit { turn: u64 },
    /// The sink failed.
    WriteFault,
}

/// Serves guests at one new space, as `drb_serving::serve_run` does, and then writes all its turns to a sink.
///
/// The history may have `max_turns` turns, and is kept in memory until it is written. The doors, the clock and the space
/// are handed back as `serve_run` does.
/// Answers: `Served` as `serve_run` would, and beside `Done` and `AcceptFault` the texts of all turns of the space that is
/// handed back were appended to the sink. `DoesNotFit` only where that turn is the first of the space that has no text;
/// those of the turns before it were appended. `WriteFault` only where the sink's own count of faults rose; a front of the
/// texts was appended. `Served::Memory` at any time; there is no space then.
/// Source: docs/JOURNAL.md, Serving with a journal.
pub fn serve_logged<
    N: Doors + Send,
    C: Clock + Send + Drop,
    D: Dialer + Send + Drop,
    G: Gate + Sync,
    K: Sink,
    R: Threads + Wait + Sync,
>(
    rt: &R,
    alloc: Global,
    secret: Secret,
    settings: &Settings,
    max_turns: u64,
    doors: N,
    clock: C,
    dialer: D,
    gate: &G,
    journal: &mut K,
) -> (Logged, N, C, Option<Space<VecJournal>>)
    requires workers { (1 ≤ settings.now.workers) × (settings.now.workers ≤ 256) }
    ensures logged { IsLogged max_turns
        (outside (N.faults doors) (N.ends doors) (C.readings clock))
        (outside (N.faults result.1) (N.ends result.1) (C.readings result.2))
        (N.guests result.1) result.3 result.0 }
    ensures sink { ChangesBytes K.given K.stays K.holds K.faults journal.old journal.new
        (Logs result.3 result.0) }
    ensures fault { result.0 ≡ Logged.WriteFault →
        Rose (K.faults journal.old) (K.faults journal.new) }
{
    let (served, doors, clock, space) = serve_run(
        rt,
        alloc,
        secret,
        settings,
        VecJournal::new(alloc, max_turns),
        doors,
        clock,
        dialer,
        gate,
    );
    let (logged, space) = write_down(alloc, served, space, journal);
    (logged, doors, clock, space)
}

/// Writes the history of the space that was served, where there is one.
fn write_down<K: Sink>(
    alloc: Global,
    served: Served,
    space: Option<Space<VecJournal>>,
    journal: &mut K,
) -> (Logged, Option<Space<VecJournal>>)
    ensures kept { Kept served space result.0 result.1 }
    ensures sink { ChangesBytes K.given K.stays K.holds K.faults journal.old journal.new
        (Logs result.1 result.0) }
    ensures fault { result.0 ≡ Logged.WriteFault →
        Rose (K.faults journal.old) (K.faults journal.new) }
{
    let Some(space) = space else {
        return (Logged::Served(served), None);
    };
    match write_history(alloc, space.history(), journal) {
        Ok(()) => (Logged::Served(served), Some(space)),
        Err(HistoryError::DoesNotFit { turn }) => (Logged::DoesNotFit { turn }, Some(space)),
        Err(HistoryError::WriteFault) => (Logged::WriteFault, Some(space)),
        Err(HistoryError::Memory) => {
            drop(space);
            (Logged::Served(Served::Memory), None)
        }
    }
}
