//! The index: keys of requests by their places, and what is found through them.

ghost use Rattle.std.specs.Prelude.{◌≡◌, OnOk, OnErr, filter};
ghost use Rattle.std.specs.BTreeMap.{is_at};
ghost use Rattle.std.specs.BTreeSet.{insert_key};
ghost use Rattle.std.specs.Set.{remove_key};
ghost use Rattle.std.specs.Ordering.{nat_cmp};
ghost use Rattle.rinda_wait.specs.Waiting.{request_of, reads as reads_spec, takes as takes_spec};
ghost use Rattle.rinda_wait.specs.Places.{key_of as key_of_spec, is_of, suits_row, first_led, with_led, keys_at, lesser as lesser_spec};

use crate::serving::{reads, takes};
use crate::table::Table;
use rinda_tuple::Tuple;
use std::alloc::AllocError;
use std::collections::BTreeSet;

/// The key of a request at that place.
pub(crate) fn key_of(place: u64, id: u64) -> u128
    ensures { result ≡ key_of_spec place id }
{
    place as u128 * 18446744073709551616 + id as u128
}

/// Adds the key of a request at that place.
///
/// Errors: only want of memory; all is then as before.
pub(crate) fn add_key(keys: &mut BTreeSet<u128>, place: u64, id: u64) -> Result<(), AllocError>
    ensures added { OnOk result
        (keys.new.keys ≡ insert_key nat_cmp keys.old.keys (key_of_spec place id)) }
    ensures kept { OnErr result (keys.new.keys ≡ keys.old.keys) }
{
    match keys.insert(key_of(place, id)) {
        Ok(_) => Ok(()),
        Err(_) => Err(AllocError),
    }
}

/// Takes the key of a request at that place away.
pub(crate) fn remove_key_at(keys: &mut BTreeSet<u128>, place: u64, id: u64)
    ensures { keys.new.keys ≡ remove_key (is_at (nat_cmp (key_of_spec place id))) keys.old.keys }
{
    keys.remove(&key_of(place, id));
}

/// The least id at the place, if there is one, of a request that waits to take or to hold the tuple.
pub(crate) fn first_taker(
    table: &Table,
    keys: &BTreeSet<u128>,
    place: Option<u64>,
    tuple: &Tuple,
) -> Option<u64>
    ensures { result ≡ first_led (takes_spec tuple.now) table.now
        (keys_at place keys.now.keys) }
{
    match place {
        Some(place) => first_taker_at(table, keys, place, tuple),
        None => None,
    }
}

fn first_taker_at(table: &Table, keys: &BTreeSet<u128>, place: u64, tuple: &Tuple) -> Option<u64>
    ensures { result ≡ first_led (takes_spec tuple.now) table.now
        (filter (is_of place) keys.now.keys) }
{
    let low = key_of(place, 0);
    let high = key_of(place, u64::MAX);
    for key in keys.range(low..=high) {
        let id = (*key % 18446744073709551616) as u64;
        if takes_at(table, id, tuple) {
            return Some(id);
        }
    }
    None
}

/// The request with that id waits to take or to hold the tuple.
fn takes_at(table: &Table, id: u64, tuple: &Tuple) -> bool
    ensures { result ≡ suits_row (takes_spec tuple.now) (request_of id table.now) }
{
    match table.get(id) {
        Some(row) => takes(row, tuple),
        None => false,
    }
}

/// Adds the ids at the place, if there is one, of the requests that wait to read the tuple.
///
/// Errors: only want of memory.
pub(crate) fn add_readers(
    table: &Table,
    keys: &BTreeSet<u128>,
    place: Option<u64>,
    tuple: &Tuple,
    found: &mut BTreeSet<u64>,
) -> Result<(), AllocError>
    ensures { OnOk result (found.new.keys ≡ with_led (reads_spec tuple.now) table.now
        (keys_at place keys.now.keys) found.old.keys) }
{
    match place {
        Some(place) => add_readers_at(table, keys, place, tuple, found),
        None => Ok(()),
    }
}

fn add_readers_at(
    table: &Table,
    keys: &BTreeSet<u128>,
    place: u64,
    tuple: &Tuple,
    found: &mut BTreeSet<u64>,
) -> Result<(), AllocError>
    ensures { OnOk result (found.new.keys ≡ with_led (reads_spec tuple.now) table.now
        (filter (is_of place) keys.now.keys) found.old.keys) }
{
    let low = key_of(place, 0);
    let high = key_of(place, u64::MAX);
    for key in keys.range(low..=high) {
        let id = (*key % 18446744073709551616) as u64;
        if reads_at(table, id, tuple) && found.insert(id).is_err() {
            return Err(AllocError);
        }
    }
    Ok(())
}

/// The request with that id waits to read the tuple.
fn reads_at(table: &Table, id: u64, tuple: &Tuple) -> bool
    ensures { result ≡ suits_row (reads_spec tuple.now) (request_of id table.now) }
{
    match table.get(id) {
        Some(row) => reads(row, tuple),
        None => false,
    }
}

/// The lesser one.
pub(crate) fn lesser(a: Option<u64>, b: Option<u64>) -> Option<u64>
    ensures { result ≡ lesser_spec a b }
{
    match (a, b) {
        (None, b) => b,
        (Some(a), None) => Some(a),
        (Some(a), Some(b)) => Some(if a <= b { a } else { b }),
    }
}
