//! What one event touched is served.

ghost use Rattle.std.specs.Prelude.{IfOk};
ghost use Rattle.rinda_effects.specs.Touches.{ATuple, ARequest};
ghost use Rattle.rinda_tables.specs.Tabled.{Stays};
ghost use Rattle.rinda_serve.specs.Serving.{seen, Serves, PicksFor};

use crate::giving::{give_last, read_all};
use crate::touched::Touched;
use crate::waiting::{is_live, match_for, taker_for};
use rinda_rules::Pick;
use rinda_tables::Tables;
use std::alloc::{AllocError, Global};

/// Serves what was touched, in a space where nobody else waits beside a match: all that wait to read a tuple do so, and
/// then the first that waits to take it or to hold it gets it; a request that waits gets its least match.
///
/// The picks are the result, in their order.
/// Errors: only want of memory; some are served then, and others not, ahead of what stands.
/// Source: docs/SPACE.md, Phases, Serve.
pub fn serve(tables: &mut Tables, alloc: Global, touched: Touched) -> Result<Vec<Pick>, AllocError>
    ensures served { IfOk result
        (λ picks. Serves (seen touched) tables.old tables.new picks.items) }
    ensures picked { IfOk result (λ picks. PicksFor (seen touched) tables.old picks.items) }
    ensures stays { Stays tables.old tables.new }
{
    match touched {
        Touched::NoRow => Ok(Vec::new(alloc)),
        Touched::ATuple(id) => serve_tuple(tables, alloc, id),
        Touched::ARequest(id) => serve_request(tables, alloc, id),
    }
}

fn serve_tuple(tables: &mut Tables, alloc: Global, id: u64) -> Result<Vec<Pick>, AllocError>
    ensures served { IfOk result (λ picks. Serves (ATuple id) tables.old tables.new picks.items) }
    ensures picked { IfOk result (λ picks. PicksFor (ATuple id) tables.old picks.items) }
    ensures stays { Stays tables.old tables.new }
{
    let Some(row) = tables.tuples.row(id) else {
        return Ok(Vec::new(alloc));
    };
    if !is_live(tables.clock, row) {
        return Ok(Vec::new(alloc));
    }
    let taker = taker_for(&tables.requests, row);
    let picks = read_all(tables, alloc, id)?;
    match taker {
        None => Ok(picks),
        Some(request) => give_last(tables, alloc, request, id, picks),
    }
}

fn serve_request(tables: &mut Tables, alloc: Global, id: u64) -> Result<Vec<Pick>, AllocError>
    ensures served { IfOk result
        (λ picks. Serves (ARequest id) tables.old tables.new picks.items) }
    ensures picked { IfOk result (λ picks. PicksFor (ARequest id) tables.old picks.items) }
    ensures stays { Stays tables.old tables.new }
{
    match match_for(tables, id) {
        None => Ok(Vec::new(alloc)),
        Some(tuple) => give_last(tables, alloc, id, tuple, Vec::new(alloc)),
    }
}
