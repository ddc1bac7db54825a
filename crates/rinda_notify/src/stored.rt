//! A notifier as a start has it.

ghost use Rattle.std.specs.Prelude.{◌≡◌, IfOk, option_copied};
ghost use Rattle.rinda_rules.specs.Starts.{deadline_of as deadline_of_spec, renewer_by as renewer_by_spec, doubt_of, is_doubted_by};
ghost use Rattle.rinda_notify.specs.Notes.{loaded};

use crate::note::Note;
use crate::queue::Queue;
use drb_tree::Remote;
use rinda_rules::{Doubt, StartLease, StartNote};
use rinda_tuple::copy_renewer;
use std::alloc::{AllocError, Global};

/// The stored notifier with its queue and its lease.
///
/// Errors: only want of memory.
pub(crate) fn note_from(
    alloc: Global,
    stored: &StartNote,
    lease: Option<&StartLease>,
) -> Result<Note, AllocError>
    ensures { IfOk result (λ note. note ≡ loaded stored.now (option_copied lease.entry)) }
{
    let renewer = renewer_by(alloc, lease)?;
    let event = stored.row.event.copy(alloc)?;
    let pattern = stored.row.pattern.copy(alloc)?;
    let queue = Queue::of(alloc, stored.events.as_slice())?;
    Ok(Note {
        id: stored.row.id,
        event,
        pattern,
        deadline: deadline_of(lease),
        renewer,
        doubt: doubt_by(lease),
        state: stored.row.state,
        queue,
    })
}

/// A copy of who is asked for more time.
///
/// Errors: only want of memory.
fn renewer_by(alloc: Global, lease: Option<&StartLease>) -> Result<Option<Remote>, AllocError>
    ensures { IfOk result (λ renewer. renewer ≡ renewer_by_spec (option_copied lease.entry)) }
{
    match lease {
        Some(lease) => copy_renewer(alloc, &lease.renewer),
        None => Ok(None),
    }
}

/// When the lease is over.
fn deadline_of(lease: Option<&StartLease>) -> Option<u64>
    ensures { result ≡ deadline_of_spec (option_copied lease.entry) }
{
    match lease {
        Some(lease) => lease.deadline,
        None => None,
    }
}

/// Whether the renewer has to be asked.
fn doubt_by(lease: Option<&StartLease>) -> Doubt
    ensures { result ≡ doubt_of (is_doubted_by (option_copied lease.entry)) }
{
    match lease {
        Some(lease) if lease.doubted => Doubt::Waiting,
        _ => Doubt::No,
    }
}
