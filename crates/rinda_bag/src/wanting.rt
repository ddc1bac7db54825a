//! Which rows a search may answer.

ghost use Rattle.std.specs.Prelude.{◌≡◌, ◌≤◌, ◌+◌, if◌then◌else◌, not, ◌&&◌, ◌||◌};
ghost use Rattle.rinda_rules.specs.Space.{is_live as is_live_spec, is_free};
ghost use Rattle.rinda_marks.specs.Opening.{opens as opens_spec};
ghost use Rattle.rinda_bag.specs.Wanted.{is_wanted as is_wanted_spec};

use rinda_marks::opens;
use rinda_rules::Doubt;
use rinda_rules::plain::Entry;
use rinda_tuple::{Steps, Template, is_match, matches};
use std::sync::ledger::Ledger;

/// A search may answer the row. Only one that opens as the template does is matched with it.
#[tactic(auto, using(crate::proofs::Searched::unopened))]
pub fn tries<L: Ledger>(
    row: &Entry,
    pattern: &Template,
    free: bool,
    now: u64,
    steps: &mut Steps<L>,
) -> bool
    ensures answer { result ≡ is_wanted_spec now free pattern.now row.now }
    ensures few { steps.new ≤ steps.old
        + (if opens_spec pattern.now row.now.value then 1 else 0) }
{
    if !may_go(row, free, now) || !opens(pattern, &row.value) {
        return false;
    }
    matches(pattern, &row.value, steps)
}

/// The same, for a caller that counts no steps.
pub fn is_wanted(row: &Entry, pattern: &Template, free: bool, now: u64) -> bool
    ensures { result ≡ is_wanted_spec now free pattern.now row.now }
{
    may_go(row, free, now) && is_match(pattern, &row.value)
}

/// The row is live, and free where it is to be free.
fn may_go(row: &Entry, free: bool, now: u64) -> bool
    ensures { result ≡ (is_live_spec now row.now && (not free || is_free row.now)) }
{
    is_live(row, now) && (!free || row.holder.is_none())
}

/// The row is neither marked nor doubted, and held or its deadline is above now.
fn is_live(row: &Entry, now: u64) -> bool
    ensures { result ≡ is_live_spec now row.now }
{
    let doubted = match row.doubt {
        Doubt::No => false,
        Doubt::Waiting | Doubt::Asked => true,
    };
    let over = match row.deadline {
        Some(deadline) => deadline <= now,
        None => false,
    };
    !row.marked && !doubted && (row.holder.is_some() || !over)
}
