//! One turn over the tables of a space: age, the event's own case, age, serve.

ghost use Rattle.std.specs.Prelude.{◌≡◌, ◌<◌, ◌^◌, ◌++◌, IfOk};
ghost use Rattle.rinda_serve.specs.Serving.{seen};
ghost use Rattle.rinda_tables.specs.Tabled.{Stays};
ghost use Rattle.rinda_space.specs.Begins.{Begun, Ends, Steps, first_of};

use rinda_cases::{case, touched_by};
use rinda_rules::{Event, Out, Pick, Picks};
use rinda_serve::{Touched, serve};
use rinda_tables::Tables;
use std::alloc::{AllocError, Global};

/// Makes the event's turn in tables that were advanced: they age, its own case is made, they age again, and what it
/// touched is served. The answer and the picks are the result.
///
/// Errors: only want of memory; what stands is as it was.
/// Source: docs/SPACE.md, Phases.
pub(crate) fn step(
    tables: &mut Tables,
    alloc: Global,
    caller: u64,
    event: &Event,
) -> Result<(Out, Picks), AllocError>
    requires room { tables.old.ids.ahead.next < 2 ^ 64 }
    requires begun { Begun tables.old }
    ensures steps { IfOk result (λ both.
        Steps caller event.now tables.old tables.new both.0 both.1) }
    ensures stays { Stays tables.old tables.new }
{
    tables.age(alloc)?;
    let touched = touched_by(tables, event);
    let (out, pick) = case(tables, alloc, caller, event)?;
    match end(tables, alloc, touched, pick) {
        Ok(picks) => Ok((out, picks)),
        Err(refused) => {
            drop(out);
            Err(refused)
        }
    }
}

/// Ages what the event's own case left, and serves what it touched. Its own pick comes first.
fn end(
    tables: &mut Tables,
    alloc: Global,
    touched: Touched,
    pick: Option<Pick>,
) -> Result<Picks, AllocError>
    ensures ends { IfOk result (λ picks.
        Ends (seen touched) pick tables.old tables.new picks) }
    ensures stays { Stays tables.old tables.new }
{
    tables.age(alloc)?;
    let served = serve(tables, alloc, touched)?;
    let picks = after_first(alloc, pick, served)?;
    Ok(Picks::of(picks))
}

/// The picks with that one before them, if there is one.
fn after_first(alloc: Global, pick: Option<Pick>, rest: Vec<Pick>) -> Result<Vec<Pick>, AllocError>
    ensures { IfOk result (λ picks. picks.items ≡ first_of pick ++ rest.items) }
{
    match pick {
        None => Ok(rest),
        Some(pick) => {
            let mut picks = Vec::new(alloc);
            picks.push(pick)?;
            let mut rest = rest;
            picks.append(&mut rest)?;
            Ok(picks)
        }
    }
}
