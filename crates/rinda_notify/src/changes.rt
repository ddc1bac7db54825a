//! Changes of the rows, each with the steps that take it back.

ghost use Rattle.std.specs.Prelude.{◌≡◌, true, [], ◌∷◌, ◌++◌, map, IfOk, OnOk, OnErr};
ghost use Rattle.rinda_rules.specs.Rows.{rising};
ghost use Rattle.rinda_notify.specs.declared.step.Step.TheVariants as step;
ghost use Rattle.rinda_notify.specs.Notes.{note_at, with_note, told, queued, closed, shut_note, event_of as event_of_spec};
ghost use Rattle.rinda_notify.specs.Undoing.{undo as undo_spec, undone, noted, left};
ghost use Rattle.rinda_notify.specs.Tables.{below};

use crate::event::event_of;
use crate::note::Note;
use crate::rows::Rows;
use crate::step::{Step, standing_of};
use rinda_rules::Last;
use rinda_rules::plain::Happening;
use rinda_tuple::Tuple;
use std::alloc::{AllocError, Global};

/// How the notifier with that id stands, if there is one, is kept as a step.
///
/// Errors: only want of memory; no step is kept.
pub(crate) fn keep_standing(
    steps: &mut Vec<Step>,
    rows: &Rows,
    alloc: Global,
    id: u64,
) -> Result<(), AllocError>
    ensures steps { OnOk result
        (steps.new.items ≡ noted id (note_at id rows.now) steps.old.items) }
    ensures kept { OnErr result (steps.new.items ≡ steps.old.items) }
    ensures rising { rising (λ n. n.id) rows.now ≡ true }
{
    if let Some(row) = rows.get(id) {
        steps.reserve(1)?;
        let standing = standing_of(alloc, row)?;
        steps.push_reserved(Step::Stood(id, standing));
    }
    Ok(())
}

/// More steps come behind.
///
/// Errors: only want of memory; the rows are as they were before these steps.
pub(crate) fn add_steps(
    rows: &mut Rows,
    steps: &mut Vec<Step>,
    mut more: Vec<Step>,
) -> Result<(), AllocError>
    ensures rows { OnOk result (rows.new ≡ rows.old) }
    ensures steps { OnOk result (steps.new.items ≡ steps.old.items ++ more.items) }
    ensures back { OnErr result (rows.new ≡ undone more.items rows.old) }
    ensures kept { OnErr result (steps.new.items ≡ steps.old.items) }
{
    match steps.append(&mut more) {
        Ok(()) => Ok(()),
        Err(refused) => {
            undo_all(rows, &mut more);
            Err(refused)
        }
    }
}

/// The event comes to the queues of those that run and hear it.
///
/// Errors: only want of memory; all is as before.
pub(crate) fn raise(
    rows: &mut Rows,
    alloc: Global,
    what: Happening,
    tuple: &Tuple,
) -> Result<Vec<Step>, AllocError>
    ensures told { OnOk result (rows.new ≡ map (told what tuple.now) rows.old) }
    ensures steps { IfOk result (λ steps. undone steps.items rows.new ≡ rows.old) }
    ensures kept { OnErr result (rows.new ≡ rows.old) }
{
    let mut steps = Vec::new(alloc);
    for id in rows.listeners(alloc, what, tuple)? {
        match queue_event(rows, &mut steps, alloc, id, what, tuple) {
            Ok(()) => {}
            Err(refused) => {
                undo_all(rows, &mut steps);
                return Err(refused);
            }
        }
    }
    Ok(steps)
}

/// The event comes to the queue of the notifier with that id, which is one step more.
///
/// Errors: only want of memory; all is as before.
fn queue_event(
    rows: &mut Rows,
    steps: &mut Vec<Step>,
    alloc: Global,
    id: u64,
    what: Happening,
    tuple: &Tuple,
) -> Result<(), AllocError>
    ensures rows { OnOk result
        (rows.new ≡ with_note id (queued (event_of_spec what tuple.now)) rows.old) }
    ensures steps { OnOk result (steps.new.items ≡ steps.old.items ++ step.Event id ∷ []) }
    ensures kept { OnErr result ((rows.new ≡ rows.old) × (steps.new.items ≡ steps.old.items)) }
{
    steps.reserve(1)?;
    rows.queue(id, event_of(alloc, what, tuple)?)?;
    steps.push_reserved(Step::Event(id));
    Ok(())
}

/// Those that run are closed.
///
/// Errors: only want of memory; all is as before.
pub(crate) fn shut(rows: &mut Rows, alloc: Global, last: Last) -> Result<Vec<Step>, AllocError>
    ensures shut { OnOk result (rows.new ≡ map (shut_note last) rows.old) }
    ensures steps { IfOk result (λ steps. undone steps.items rows.new ≡ rows.old) }
    ensures kept { OnErr result (rows.new ≡ rows.old) }
{
    let mut steps = Vec::new(alloc);
    for id in rows.running(alloc)? {
        match close(rows, &mut steps, alloc, id, last) {
            Ok(()) => {}
            Err(refused) => {
                undo_all(rows, &mut steps);
                return Err(refused);
            }
        }
    }
    Ok(steps)
}

/// The notifier with that id, if there is one, is closed.
///
/// Errors: only want of memory; all is as before.
pub(crate) fn close(
    rows: &mut Rows,
    steps: &mut Vec<Step>,
    alloc: Global,
    id: u64,
    last: Last,
) -> Result<(), AllocError>
    ensures rows { OnOk result (rows.new ≡ with_note id (closed last) rows.old) }
    ensures back { OnOk result
        (undone steps.new.items rows.new ≡ undone steps.old.items rows.old) }
    ensures kept { OnErr result ((rows.new ≡ rows.old) × (steps.new.items ≡ steps.old.items)) }
{
    keep_standing(steps, rows, alloc, id)?;
    rows.close(id, last);
    Ok(())
}

/// Adds a row, whose id is above all others.
///
/// Errors: only want of memory; all is as before.
pub(crate) fn add(rows: &mut Rows, row: Note) -> Result<(), AllocError>
    requires { below row.id rows.old ≡ true }
    ensures ok { OnOk result (rows.new ≡ rows.old ++ row ∷ []) }
    ensures kept { OnErr result (rows.new ≡ rows.old) }
{
    match rows.put(row) {
        Ok(()) => Ok(()),
        Err(refused) => {
            drop(refused);
            Err(AllocError)
        }
    }
}

/// The rows with these ids are taken out.
pub(crate) fn sweep(rows: &mut Rows, gone: &mut Vec<u64>)
    ensures rows { rows.new ≡ left gone.old.items rows.old }
    ensures gone { gone.new.items ≡ [] }
{
    while let Some(id) = gone.pop() {
        rows.take_out(id);
    }
}

/// The steps are taken back, the last one first.
pub(crate) fn undo_all(rows: &mut Rows, steps: &mut Vec<Step>)
    ensures rows { rows.new ≡ undone steps.old.items rows.old }
    ensures steps { steps.new.items ≡ [] }
{
    while let Some(step) = steps.pop() {
        undo(rows, step);
    }
}

fn undo(rows: &mut Rows, step: Step)
    ensures { rows.new ≡ undo_spec step rows.old }
{
    match step {
        Step::Event(id) => rows.shorten(id),
        Step::Popped(id, event) => rows.give_back(id, event),
        Step::Stood(id, standing) => rows.stand(id, standing),
        Step::Started(id) => rows.take_out(id),
    }
}
