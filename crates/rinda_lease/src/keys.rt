ghost use Rattle.std.specs.Prelude.{◌≡◌, ℕ, ◌+◌, ◌<◌, ◌≤◌, ◌||◌, ◌&&◌, ◌==◌, not, true, length, IfOk, if◌then◌else◌};
ghost use Rattle.std.specs.VecDeque.{deque_len, deque_capacity};
ghost use Rattle.rinda_rules.specs.Rows.{rising};
ghost use Rattle.rinda_lease.specs.Stages.{is_in};
ghost use Rattle.rinda_lease.specs.Orders.{key_of as key_of_spec, due_ids as due_ids_spec, ids_of as ids_of_spec};

use std::alloc::{AllocError, Global};
use std::collections::VecDeque;

/// How many ids have one slot.
pub(crate) const IDS: u128 = 18_446_744_073_709_551_616;

/// The key of an id in a slot.
pub(crate) fn key_of(slot: u64, id: u64) -> u128
    ensures { result ≡ key_of_spec slot id }
{
    slot as u128 * IDS + id as u128
}

/// Takes the key out, where it stands there.
pub(crate) fn take_out(keys: &mut VecDeque<u128>, key: u128)
    requires { rising (λ k. k) keys.old.items ≡ true }
    ensures rise { rising (λ k. k) keys.new.items ≡ true }
    ensures keys { (k : ℕ) → is_in k keys.new.items
        ≡ (not (k == key) && is_in k keys.old.items) }
    ensures length { length keys.new.items + (if is_in key keys.old.items then 1 else 0)
        ≡ length keys.old.items }
    ensures capacity { deque_capacity keys.new ≡ deque_capacity keys.old }
{
    if let Ok(at) = keys.binary_search(&key) {
        keys.remove(at);
    }
}

/// Puts the key at its place. Takes no memory.
pub(crate) fn put_in(keys: &mut VecDeque<u128>, key: u128)
    requires rise { rising (λ k. k) keys.old.items ≡ true }
    requires room { length keys.old.items < deque_capacity keys.old }
    ensures rise { rising (λ k. k) keys.new.items ≡ true }
    ensures keys { (k : ℕ) → is_in k keys.new.items ≡ (k == key || is_in k keys.old.items) }
    ensures length { length keys.new.items ≤ length keys.old.items + 1 }
    ensures capacity { deque_capacity keys.old ≤ deque_capacity keys.new }
{
    if let Err(at) = keys.binary_search(&key) {
        // There is room, so this never fails.
        let _inserted = keys.insert(at, key);
    }
}

/// The ids of the first keys, as far as their slot is at most `now`.
pub(crate) fn due_ids(
    alloc: Global,
    keys: &VecDeque<u128>,
    now: u64,
) -> Result<Vec<u64>, AllocError>
    ensures { IfOk result (λ ids. ids.items ≡ due_ids_spec now keys.now.items) }
{
    let mut ids = Vec::new(alloc);
    for key in keys.iter() {
        if now < (*key / IDS) as u64 {
            break;
        }
        ids.push((*key % IDS) as u64)?;
    }
    Ok(ids)
}

/// The ids of the keys, in their order.
pub(crate) fn ids_of(alloc: Global, keys: &VecDeque<u128>) -> Result<Vec<u64>, AllocError>
    ensures { IfOk result (λ ids. ids.items ≡ ids_of_spec keys.now.items) }
{
    let mut ids = Vec::new(alloc);
    for key in keys.iter() {
        ids.push((*key % IDS) as u64)?;
    }
    Ok(ids)
}
