//! Which rows may be served, and which request or tuple is found for them.

ghost use Rattle.std.specs.Prelude.{◌≡◌, ◌<◌};
ghost use Rattle.rinda_rules.specs.Rows.{row_of};
ghost use Rattle.rinda_rules.specs.Space.{is_live as is_live_spec, is_waiting as is_waiting_spec, is_parked, is_doubted as is_doubted_spec, is_over as is_over_spec, is_read as is_read_spec};
ghost use Rattle.rinda_bag.specs.Wanted.{least_wanted};
ghost use Rattle.rinda_serve.specs.Serving.{taker_for as taker_for_spec, match_of};

use rinda_rules::plain::{Entry, Request};
use rinda_rules::{Doubt, Kind, RequestState};
use rinda_tables::{Requests, Tables, Tuples};
use rinda_tuple::{Steps, Template};
use std::marker::Brand;
use std::sync::ledger::{Blank, Ledger};

/// The least id of a request that waits to take or to hold the tuple, where nobody holds it.
pub(crate) fn taker_for(requests: &Requests, row: &Entry) -> Option<u64>
    ensures { result ≡ taker_for_spec row.now requests.now.ahead }
{
    if row.holder.is_none() {
        requests.taker(&row.value)
    } else {
        None
    }
}

/// The least id of a tuple that the request with that id may have, where it waits.
pub(crate) fn match_for(tables: &Tables, id: u64) -> Option<u64>
    ensures { result ≡ match_of tables.now.clock tables.now.tuples.ahead
        (row_of (λ r. r.id) id tables.now.requests.ahead) }
{
    let row = tables.requests.row(id)?;
    if !is_waiting(row) {
        return None;
    }
    find(
        &tables.tuples,
        &row.pattern,
        !is_read(row.kind),
        tables.clock,
    )
}

/// The least id of a live tuple that the template matches, for a caller that counts no steps.
fn find(tuples: &Tuples, pattern: &Template, free: bool, now: u64) -> Option<u64>
    ensures { result ≡ least_wanted now free pattern.now tuples.now.ahead }
{
    find_once::<Brand>(tuples, pattern, free, now, Blank::new(1))
}

/// One search, on a counter of its own.
fn find_once<L: Ledger>(
    tuples: &Tuples,
    pattern: &Template,
    free: bool,
    now: u64,
    blank: Blank,
) -> Option<u64>
    requires name { blank.name ≡ L.name }
    requires parts { blank.parts ≡ L.parts }
    requires some { 0 < L.parts }
    ensures { result ≡ least_wanted now free pattern.now tuples.now.ahead }
{
    let mut steps = Steps::<L>::new(blank);
    tuples.find(pattern, free, now, &mut steps)
}

/// The tuple is neither marked nor doubted, and held or its deadline is above now.
pub(crate) fn is_live(now: u64, row: &Entry) -> bool
    ensures { result ≡ is_live_spec now row.now }
{
    !row.marked && (!is_doubted(row.doubt) && (row.holder.is_some() || !is_over(now, row.deadline)))
}

/// The request is parked, and not doubted.
fn is_waiting(row: &Request) -> bool
    ensures { result ≡ is_waiting_spec row.now }
{
    parks(&row.state) && !is_doubted(row.doubt)
}

fn parks(state: &RequestState) -> bool
    ensures { result ≡ is_parked state.now }
{
    matches!(state, RequestState::Parked)
}

fn is_doubted(doubt: Doubt) -> bool
    ensures { result ≡ is_doubted_spec doubt }
{
    match doubt {
        Doubt::No => false,
        Doubt::Waiting | Doubt::Asked => true,
    }
}

fn is_over(now: u64, deadline: Option<u64>) -> bool
    ensures { result ≡ is_over_spec now deadline }
{
    match deadline {
        None => false,
        Some(deadline) => deadline <= now,
    }
}

fn is_read(kind: Kind) -> bool
    ensures { result ≡ is_read_spec kind }
{
    match kind {
        Kind::Read => true,
        Kind::Take | Kind::Move => false,
    }
}
