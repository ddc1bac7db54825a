//! Which renewer is asked next: that of the row of least id among those that wait for theirs.

ghost use Rattle.std.specs.Prelude.{◌≡◌, [], ◌∷◌, IfOk};
ghost use Rattle.rinda_rules.specs.Cases.{asking_of, flat};
ghost use Rattle.rinda_audit.specs.Asks.{best_seen, least_onto};

use drb_tree::Remote;
use rinda_rules::Doubt;
use rinda_rules::plain::{Entry, Notifier, Request};
use std::alloc::{AllocError, Global};

/// A row that waits for its renewer.
#[derive(Drop)]
pub struct Asking {
    pub id: u64,
    pub renewer: Remote,
}

/// The row of least id among the tuples and the one so far.
pub fn least_tuple(
    alloc: Global,
    rows: &[Entry],
    best: Option<Asking>,
) -> Result<Option<Asking>, AllocError>
    ensures { IfOk result
        (λ a. best_seen a ≡ least_onto
        (flat (λ row. asking_of row.id row.doubt row.renewer) rows.now) (best_seen best)) }
{
    let mut best = best;
    let mut left = rows.len();
    while left > 0 {
        left -= 1;
        let row = &rows[left];
        best = sooner(alloc, row.id, row.doubt, &row.renewer, best)?;
    }
    Ok(best)
}

/// The row of least id among the requests and the one so far.
pub fn least_request(
    alloc: Global,
    rows: &[Request],
    best: Option<Asking>,
) -> Result<Option<Asking>, AllocError>
    ensures { IfOk result
        (λ a. best_seen a ≡ least_onto
        (flat (λ row. asking_of row.id row.doubt row.renewer) rows.now) (best_seen best)) }
{
    let mut best = best;
    let mut left = rows.len();
    while left > 0 {
        left -= 1;
        let row = &rows[left];
        best = sooner(alloc, row.id, row.doubt, &row.renewer, best)?;
    }
    Ok(best)
}

/// The row of least id among the notifiers and the one so far.
pub fn least_notifier(
    alloc: Global,
    rows: &[Notifier],
    best: Option<Asking>,
) -> Result<Option<Asking>, AllocError>
    ensures { IfOk result
        (λ a. best_seen a ≡ least_onto
        (flat (λ row. asking_of row.id row.doubt row.renewer) rows.now) (best_seen best)) }
{
    let mut best = best;
    let mut left = rows.len();
    while left > 0 {
        left -= 1;
        let row = &rows[left];
        best = sooner(alloc, row.id, row.doubt, &row.renewer, best)?;
    }
    Ok(best)
}

/// The row, where it waits for its renewer and has no larger id than the one so far, and else that one.
fn sooner(
    alloc: Global,
    id: u64,
    doubt: Doubt,
    renewer: &Option<Remote>,
    best: Option<Asking>,
) -> Result<Option<Asking>, AllocError>
    ensures { IfOk result
        (λ a. best_seen a ≡ least_onto (asking_of id doubt renewer.now) (best_seen best)) }
{
    match doubt {
        Doubt::No => Ok(best),
        Doubt::Asked => Ok(best),
        Doubt::Waiting => match renewer {
            None => Ok(best),
            Some(renewer) => earlier(alloc, id, renewer, best),
        },
    }
}

fn earlier(
    alloc: Global,
    id: u64,
    renewer: &Remote,
    best: Option<Asking>,
) -> Result<Option<Asking>, AllocError>
    ensures { IfOk result
        (λ a. best_seen a ≡ least_onto (record { id = id; renewer = renewer.now } ∷ [])
        (best_seen best)) }
{
    if let Some(a) = best {
        if id > a.id {
            return Ok(Some(a));
        }
    }
    let renewer = renewer.copy(alloc)?;
    Ok(Some(Asking { id, renewer }))
}
