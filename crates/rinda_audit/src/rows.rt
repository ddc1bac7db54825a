//! The rows of a list by their ids, and the objects that ended last.

ghost use Rattle.std.specs.Prelude.{◌≡◌, [], ◌∷◌, ◌++◌, IfOk};
ghost use Rattle.rinda_rules.specs.Rows.{row_of, without};
ghost use Rattle.rinda_rules.specs.Space.{retained as retained_spec};

use crate::copies::{copy_entry, copy_notifier, copy_request};
use rinda_rules::plain::{Ended, Entry, Notifier, Request};
use std::alloc::{AllocError, Global};

/// The rows without that one.
pub fn tuples_without(alloc: Global, rows: &[Entry], id: u64) -> Result<Vec<Entry>, AllocError>
    ensures { IfOk result (λ v. v.items ≡ without (λ row. row.id) id rows.now) }
{
    let mut left = Vec::new(alloc);
    for row in rows {
        if !(row.id == id) {
            left.push(copy_entry(alloc, row)?)?;
        }
    }
    Ok(left)
}

/// The row with that id.
pub fn tuple_row(alloc: Global, rows: &[Entry], id: u64) -> Result<Option<Entry>, AllocError>
    ensures { IfOk result (λ row. row ≡ row_of (λ row. row.id) id rows.now) }
{
    for row in rows {
        if row.id == id {
            return Ok(Some(copy_entry(alloc, row)?));
        }
    }
    Ok(None)
}

/// The rows without that one.
pub fn requests_without(
    alloc: Global,
    rows: &[Request],
    id: u64,
) -> Result<Vec<Request>, AllocError>
    ensures { IfOk result (λ v. v.items ≡ without (λ row. row.id) id rows.now) }
{
    let mut left = Vec::new(alloc);
    for row in rows {
        if !(row.id == id) {
            left.push(copy_request(alloc, row)?)?;
        }
    }
    Ok(left)
}

/// The row with that id.
pub fn request_row(alloc: Global, rows: &[Request], id: u64) -> Result<Option<Request>, AllocError>
    ensures { IfOk result (λ row. row ≡ row_of (λ row. row.id) id rows.now) }
{
    for row in rows {
        if row.id == id {
            return Ok(Some(copy_request(alloc, row)?));
        }
    }
    Ok(None)
}

/// The rows without that one.
pub fn notifiers_without(
    alloc: Global,
    rows: &[Notifier],
    id: u64,
) -> Result<Vec<Notifier>, AllocError>
    ensures { IfOk result (λ v. v.items ≡ without (λ row. row.id) id rows.now) }
{
    let mut left = Vec::new(alloc);
    for row in rows {
        if !(row.id == id) {
            left.push(copy_notifier(alloc, row)?)?;
        }
    }
    Ok(left)
}

/// The row with that id.
pub fn notifier_row(
    alloc: Global,
    rows: &[Notifier],
    id: u64,
) -> Result<Option<Notifier>, AllocError>
    ensures { IfOk result (λ row. row ≡ row_of (λ row. row.id) id rows.now) }
{
    for row in rows {
        if row.id == id {
            return Ok(Some(copy_notifier(alloc, row)?));
        }
    }
    Ok(None)
}

/// The ended object with that id.
pub fn ended_row(rows: &[Ended], id: u64) -> Option<Ended>
    ensures { result ≡ row_of (λ row. row.id) id rows.now }
{
    rows.iter().copied().find(|e| e.id == id)
}

/// The last 4,096 objects that ended.
pub fn retained(alloc: Global, ended: &[Ended]) -> Result<Vec<Ended>, AllocError>
    ensures { IfOk result (λ v. v.items ≡ retained_spec ended.now) }
{
    let from = ended.len().saturating_sub(4096);
    Vec::from_slice(alloc, &ended[from..])
}

/// One more has ended.
pub fn ended_with(alloc: Global, ended: &[Ended], one: Ended) -> Result<Vec<Ended>, AllocError>
    ensures { IfOk result (λ v. v.items ≡ retained_spec (ended.now ++ one ∷ [])) }
{
    let mut all = Vec::from_slice(alloc, ended)?;
    all.push(one)?;
    retained(alloc, all.as_slice())
}
