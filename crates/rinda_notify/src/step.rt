//! What takes the changes of the notifiers back.

ghost use Rattle.std.specs.Prelude.{◌≡◌, IfOk};
ghost use Rattle.rinda_notify.specs.Undoing.{standing_of as standing_of_spec, starts as starts_spec, is_started as is_started_spec, changed_by as changed_by_spec, changed_ids as changed_ids_spec};

use crate::chain::Kept;
use crate::note::{Note, is_open};
use drb_tree::Remote;
use rinda_rules::{Doubt, NoteState};
use rinda_tuple::copy_renewer;
use std::alloc::{AllocError, Global};

/// What of a notifier can change beside its queue.
#[derive(Drop)]
pub(crate) struct Standing {
    pub(crate) deadline: Option<u64>,
    pub(crate) renewer: Option<Remote>,
    pub(crate) doubt: Doubt,
    pub(crate) state: NoteState,
}

/// What was done to the notifiers since they last stood, by the id of the notifier.
#[derive(Drop)]
pub(crate) enum Step {
    /// An event came to the end of its queue.
    Event(u64),
    /// The first event left its queue; this is its copy.
    Popped(u64, Kept),
    /// It changed, and stood so.
    Stood(u64, Standing),
    /// It is new.
    Started(u64),
}

/// How a notifier stands.
///
/// Errors: only want of memory.
pub(crate) fn standing_of(alloc: Global, row: &Note) -> Result<Standing, AllocError>
    ensures { IfOk result (λ standing. standing ≡ standing_of_spec row.now) }
{
    let renewer = copy_renewer(alloc, &row.renewer)?;
    Ok(Standing {
        deadline: row.deadline,
        renewer,
        doubt: row.doubt,
        state: row.state,
    })
}

/// The notifier with that id is new.
pub(crate) fn is_started(steps: &Vec<Step>, id: u64) -> bool
    ensures { result ≡ is_started_spec id steps.now.items }
{
    steps.iter().any(|step| starts(step, id))
}

fn starts(step: &Step, id: u64) -> bool
    ensures { result ≡ starts_spec id step.now }
{
    match step {
        Step::Event(_) => false,
        Step::Popped(_, _) => false,
        Step::Stood(_, _) => false,
        Step::Started(started) => *started == id,
    }
}

/// The ids of the notifiers that heard an event by these steps, or may have ended by them.
///
/// Errors: only want of memory.
pub(crate) fn changed_ids(alloc: Global, steps: &Vec<Step>) -> Result<Vec<u64>, AllocError>
    ensures { IfOk result (λ ids. ids.items ≡ changed_ids_spec steps.now.items) }
{
    let mut ids = Vec::new(alloc);
    for step in steps.iter() {
        if let Some(id) = changed_by(step) {
            ids.push(id)?;
        }
    }
    Ok(ids)
}

fn changed_by(step: &Step) -> Option<u64>
    ensures { result ≡ changed_by_spec step.now }
{
    match step {
        Step::Event(id) => Some(*id),
        Step::Popped(_, _) => None,
        Step::Stood(id, standing) => {
            if is_open(standing.state) {
                Some(*id)
            } else {
                None
            }
        }
        Step::Started(_) => None,
    }
}
