//! The index: a key for each mark of each row.

ghost use Rattle.std.specs.Prelude.{◌≡◌, ◌≤◌, ◌+◌, ◌<◌, true, filter, OnOk, OnErr, IfOk};
ghost use Rattle.std.specs.Bool.{OnTrue, OnFalse};
ghost use Rattle.rinda_marks.specs.Marks.{mark_list};
ghost use Rattle.rinda_bag.specs.Indexes.{key_of as key_of_spec, id_of as id_of_spec, is_of, with_keys, without_keys, rows_at};
ghost use Rattle.rinda_bag.specs.Wanted.{least_wanted, all_wanted, opening_rows};

use crate::rows::Rows;
use crate::wanting::{is_wanted, tries};
use rinda_marks::Marks;
use rinda_tuple::{Steps, Template};
use std::alloc::{AllocError, Global};
use std::collections::BTreeSet;
use std::sync::ledger::Ledger;

/// The number itself, which is below 2^64.
pub fn bounded(id: u64) -> u64
    ensures same { result ≡ id }
    ensures small { result < 18446744073709551616 }
{
    id
}

/// The key of a row under a mark.
fn key_of(mark: u64, id: u64) -> u128
    ensures { result ≡ key_of_spec mark id }
{
    mark as u128 * 18446744073709551616 + id as u128
}

/// The id of which a key is.
fn id_of(key: u128) -> u64
    ensures { result ≡ id_of_spec key }
{
    (key % 18446744073709551616) as u64
}

/// Adds the keys of a row. False is want of memory, and nothing is added.
pub fn add_keys(keys: &mut BTreeSet<u128>, marks: Marks, id: u64) -> bool
    ensures yes { OnTrue result (keys.new.keys ≡ with_keys (mark_list marks) id keys.old.keys) }
    ensures no { OnFalse result (keys.new.keys ≡ keys.old.keys) }
{
    let Some(first) = marks.first else {
        return true;
    };
    let first_key = key_of(first, id);
    let Ok(added) = keys.insert(first_key) else {
        return false;
    };
    let Some(second) = marks.second else {
        return true;
    };
    match keys.insert(key_of(second, id)) {
        Ok(_) => true,
        Err(_) => {
            if added {
                keys.remove(&first_key);
            }
            false
        }
    }
}

/// Takes the keys of a row away.
pub fn remove_keys(keys: &mut BTreeSet<u128>, marks: Marks, id: u64)
    ensures { keys.new.keys ≡ without_keys (mark_list marks) id keys.old.keys }
{
    let Some(first) = marks.first else {
        return;
    };
    keys.remove(&key_of(first, id));
    let Some(second) = marks.second else {
        return;
    };
    keys.remove(&key_of(second, id));
}

/// The least id of a row that a search may answer, among those under the mark.
pub fn find_under<L: Ledger>(
    rows: &Rows,
    keys: &BTreeSet<u128>,
    mark: u64,
    pattern: &Template,
    free: bool,
    now: u64,
    steps: &mut Steps<L>,
) -> Option<u64>
    ensures least { result ≡ least_wanted now free pattern.now
        (rows_at rows.now (filter (is_of mark) keys.now.keys)) }
    ensures few { steps.new ≤ steps.old
        + opening_rows pattern.now (rows_at rows.now (filter (is_of mark) keys.now.keys)) }
{
    let low = key_of(mark, 0);
    let high = key_of(mark, u64::MAX);
    for key in keys.range(low..=high) {
        if let Some(row) = rows.get(id_of(*key)) {
            if tries(row, pattern, free, now, steps) {
                return Some(row.id);
            }
        }
    }
    None
}

/// The ids of all live matches, among those under the mark.
///
/// Errors: only want of memory.
pub fn find_all_under(
    alloc: Global,
    rows: &Rows,
    keys: &BTreeSet<u128>,
    mark: u64,
    pattern: &Template,
    now: u64,
) -> Result<Vec<u64>, AllocError>
    ensures { IfOk result (λ ids. ids.items ≡ all_wanted now pattern.now
        (rows_at rows.now (filter (is_of mark) keys.now.keys))) }
{
    let mut found = Vec::new(alloc);
    let low = key_of(mark, 0);
    let high = key_of(mark, u64::MAX);
    for key in keys.range(low..=high) {
        if let Some(row) = rows.get(id_of(*key)) {
            if is_wanted(row, pattern, false, now) {
                found.push(row.id)?;
            }
        }
    }
    Ok(found)
}
