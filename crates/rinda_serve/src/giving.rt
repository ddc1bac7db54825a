//! Requests get a tuple: they read it, take it or hold it.

ghost use Rattle.std.specs.Prelude.{◌≡◌, ◌∷◌, ◌++◌, [], Some, map, OnOk, IfOk};
ghost use Rattle.rinda_tuple.specs.Tuples.{value_of};
ghost use Rattle.rinda_rules.specs.declared.plain.Entry.{Entry as EntryRow};
ghost use Rattle.rinda_rules.specs.declared.out.Out.TheVariants as outs;
ghost use Rattle.rinda_rules.specs.declared.row.RequestState.TheVariants as states;
ghost use Rattle.rinda_rules.specs.Rows.{row_of};
ghost use Rattle.rinda_rules.specs.Phases.{request_in, served_with};
ghost use Rattle.rinda_rules.specs.Cases.{read_by};
ghost use Rattle.rinda_effects.specs.Serves.{picks_of as picks_of_spec};
ghost use Rattle.rinda_wait.specs.Waiting.{readers_of};
ghost use Rattle.rinda_tables.specs.Tabled.{Stays, BecomesBy};
ghost use Rattle.rinda_serve.specs.Serving.{BecomesWith, ReadsWith};

use rinda_rules::{Kind, Last, Out, Pick, RequestState};
use rinda_tables::Tables;
use std::alloc::{AllocError, Global};

/// All that wait to read the tuple are answered with it, in rising id. Their picks are the result.
pub(crate) fn read_all(
    tables: &mut Tables,
    alloc: Global,
    tuple: u64,
) -> Result<Vec<Pick>, AllocError>
    ensures read { IfOk result
        (λ picks. ReadsWith tuple tables.old tables.new picks.items) }
    ensures stays { Stays tables.old tables.new }
{
    let Some(row) = tables.tuples.row(tuple) else {
        return Ok(Vec::new(alloc));
    };
    let readers = tables.requests.readers(alloc, &row.value)?;
    read_each(tables, alloc, tuple, &readers)?;
    picks_of(alloc, &readers, tuple)
}

/// The request gets the tuple. Its pick comes after these.
pub(crate) fn give_last(
    tables: &mut Tables,
    alloc: Global,
    request: u64,
    tuple: u64,
    picks: Vec<Pick>,
) -> Result<Vec<Pick>, AllocError>
    ensures picks { IfOk result (λ all. all.items
        ≡ picks.items ++ record { request = request; tuple = tuple } ∷ []) }
    ensures given { IfOk result
        (λ all. BecomesWith request tuple served_with tables.old tables.new) }
    ensures stays { Stays tables.old tables.new }
{
    give(tables, alloc, request, tuple)?;
    let mut all = picks;
    all.push(Pick { request, tuple })?;
    Ok(all)
}

/// The requests with these ids, which are all that wait to read the tuple, are answered with it.
fn read_each(tables: &mut Tables, alloc: Global, tuple: u64, ids: &[u64]) -> Result<(), AllocError>
    requires { (t : EntryRow) → row_of (λ t. t.id) tuple tables.old.tuples.ahead ≡ Some t →
        ids.now ≡ readers_of t.value tables.old.requests.ahead }
    ensures read { OnOk result (BecomesBy tuple
        (λ t s. record s { requests = map (read_by t.value) s.requests })
        tables.old tables.new) }
    ensures stays { Stays tables.old tables.new }
{
    for id in ids {
        answer(tables, alloc, *id, tuple)?;
    }
    Ok(())
}

/// The request gets the tuple: it reads it, takes it or holds it.
fn give(tables: &mut Tables, alloc: Global, request: u64, tuple: u64) -> Result<(), AllocError>
    ensures given { OnOk result (BecomesWith request tuple served_with tables.old tables.new) }
    ensures stays { Stays tables.old tables.new }
{
    let Some(row) = tables.requests.row(request) else {
        return Ok(());
    };
    match row.kind {
        Kind::Read => answer(tables, alloc, request, tuple),
        Kind::Take => {
            answer(tables, alloc, request, tuple)?;
            tables.end_tuple(alloc, Last::Taken, tuple)
        }
        Kind::Move => {
            tables.hold(alloc, tuple, request)?;
            tables.set_request(request, RequestState::Granted(tuple))
        }
    }
}

/// The request is answered with a copy of the tuple.
fn answer(tables: &mut Tables, alloc: Global, request: u64, tuple: u64) -> Result<(), AllocError>
    ensures answered { OnOk result (BecomesWith request tuple
        (λ r t. request_in request (states.Answered (outs.Answer (value_of t.value))))
        tables.old tables.new) }
    ensures stays { Stays tables.old tables.new }
{
    let Some(row) = tables.tuples.row(tuple) else {
        return Ok(());
    };
    let copied = row.value.to_value(alloc)?;
    tables.set_request(request, RequestState::Answered(Out::Answer(copied)))
}

/// Each of the requests gets the tuple.
fn picks_of(alloc: Global, requests: &[u64], tuple: u64) -> Result<Vec<Pick>, AllocError>
    ensures { IfOk result (λ picks. picks.items ≡ picks_of_spec tuple requests.now) }
{
    let mut picks = Vec::new(alloc);
    for request in requests {
        picks.push(Pick {
            request: *request,
            tuple,
        })?;
    }
    Ok(picks)
}
