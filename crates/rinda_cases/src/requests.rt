//! What a request's own caller makes of it: Submit, Collect, Settle, and Withdraw of a request.

ghost use Rattle.std.specs.Prelude.{◌≡◌, ◌<◌, ◌==◌, not, OnOk, IfOk, if◌then◌else◌};
ghost use Rattle.rinda_rules.specs.declared.event.Event.TheVariants as event;
ghost use Rattle.rinda_rules.specs.declared.object.Last.TheVariants as last;
ghost use Rattle.rinda_rules.specs.declared.out.Out.TheVariants as out;
ghost use Rattle.rinda_rules.specs.Rows.{row_of};
ghost use Rattle.rinda_rules.specs.Space.{Plain, found, tuple_at, is_over as is_over_spec, is_reserved as is_reserved_spec, is_read as is_read_spec};
ghost use Rattle.rinda_rules.specs.Phases.{request_ended};
ghost use Rattle.rinda_rules.specs.Cases.{answers, on_own, submit_unmatched as submit_unmatched_spec, last_of as last_of_spec, value_at, collect as collect_spec, settle_tuple as settle_tuple_spec, settle as settle_spec, withdraw_request as withdraw_request_spec};
ghost use Rattle.rinda_bag.specs.Wanted.{least_wanted};
ghost use Rattle.rinda_tables.specs.Holds.{Holds};
ghost use Rattle.rinda_tables.specs.Tabled.{ahead_of, Stays, Becomes};
ghost use Rattle.rinda_cases.specs.Makes.{Makes, MakesFor, Answers};
ghost use Rattle.rinda_cases.specs.Requests.{not_own, is_own as is_own_spec, expires as expires_spec, Serves, ServesAs, Submits, served_answer as served_answer_spec};

use drb_ids::Looked;
use drb_value::Value;
use rinda_rules::plain::Request;
use rinda_rules::{Kind, Last, ObjectKind, Out, Pick, RequestState};
use rinda_tables::Tables;
use rinda_tuple::Steps;
use std::alloc::{AllocError, Global};
use std::marker::Brand;
use std::sync::ledger::{Blank, Ledger};

/// The caller's own request is served at once where it has a match, and else waits, unless it was canceled or its time is
/// over. With the answer comes the match that it got, the least.
///
/// Errors: only want of memory; what is ahead may then be changed in part, and what stands is as it was.
/// Source: docs/SPACE.md, Cases, Submit.
pub fn submit(
    tables: &mut Tables,
    alloc: Global,
    caller: u64,
    id: u64,
) -> Result<(Out, Option<Pick>), AllocError>
    ensures answers { IfOk result (λ both.
        Answers caller (event.Submit id) tables.old tables.new both.0 both.1) }
    ensures stays { Stays tables.old tables.new }
{
    match refusal(tables, caller, id) {
        Some(out) => Ok((out, None)),
        None => submit_own(tables, alloc, id),
    }
}

fn submit_own(
    tables: &mut Tables,
    alloc: Global,
    id: u64,
) -> Result<(Out, Option<Pick>), AllocError>
    ensures submits { IfOk result (λ both.
        Submits id tables.old tables.new both.0 both.1) }
    ensures stays { Stays tables.old tables.new }
{
    let Some(row) = tables.requests.row(id) else {
        return Ok((Out::WrongKind, None));
    };
    if !is_reserved(&row.state) {
        return Ok((Out::WrongKind, None));
    }
    match least_match(tables, row) {
        Some(tuple) => {
            let out = submit_matched(tables, alloc, id, tuple)?;
            Ok((out, Some(Pick { request: id, tuple })))
        }
        None => {
            let out = submit_unmatched(tables, id)?;
            Ok((out, None))
        }
    }
}

/// The least id of a tuple that the request may have.
fn least_match(tables: &Tables, row: &Request) -> Option<u64>
    ensures { result ≡ least_wanted tables.now.clock (not (is_read_spec row.now.kind))
        row.now.pattern tables.now.tuples.ahead }
{
    least_once::<Brand>(tables, row, Blank::new(1))
}

/// The same, on a counter of its own.
fn least_once<L: Ledger>(tables: &Tables, row: &Request, blank: Blank) -> Option<u64>
    requires name { blank.name ≡ L.name }
    requires parts { blank.parts ≡ L.parts }
    requires some { 0 < L.parts }
    ensures { result ≡ least_wanted tables.now.clock (not (is_read_spec row.now.kind))
        row.now.pattern tables.now.tuples.ahead }
{
    let mut steps = Steps::<L>::new(blank);
    tables
        .tuples
        .find(&row.pattern, !is_read(row.kind), tables.clock, &mut steps)
}

/// Without a match the request is canceled, expires, or is parked.
fn submit_unmatched(tables: &mut Tables, id: u64) -> Result<Out, AllocError>
    ensures made { IfOk result
        (λ o. MakesFor id (λ r s. submit_unmatched_spec s r) tables.old tables.new o) }
    ensures stays { Stays tables.old tables.new }
{
    let Some(row) = tables.requests.row(id) else {
        return Ok(Out::WrongKind);
    };
    if row.marked {
        tables.end_request(Last::Canceled, id)?;
        Ok(Out::Canceled)
    } else if expires(tables.clock, row) {
        tables.end_request(Last::Expired, id)?;
        Ok(Out::Expired)
    } else {
        tables.set_request(id, RequestState::Parked)?;
        Ok(Out::Parked(id))
    }
}

/// Its time is over, and nobody is asked for more.
fn expires(now: u64, row: &Request) -> bool
    ensures { result ≡ expires_spec now row.now }
{
    is_over(now, row.deadline) && row.renewer.is_none()
}

/// With a match the request is served and collected at once.
fn submit_matched(
    tables: &mut Tables,
    alloc: Global,
    id: u64,
    tuple: u64,
) -> Result<Out, AllocError>
    ensures serves { IfOk result (λ o. Serves id tuple tables.old tables.new o) }
    ensures stays { Stays tables.old tables.new }
{
    let Some(row) = tables.requests.row(id) else {
        return Ok(Out::WrongKind);
    };
    let kind = row.kind;
    let value = value_held(tables, alloc, tuple)?;
    match serve(tables, alloc, kind, id, tuple) {
        Ok(()) => Ok(served_answer(kind, id, value)),
        Err(refused) => {
            drop(value);
            Err(refused)
        }
    }
}

/// What a request that was just served with a tuple of that value answers at once.
fn served_answer(kind: Kind, id: u64, value: Value) -> Out
    ensures { result ≡ served_answer_spec kind id value }
{
    match kind {
        Kind::Read => Out::Answer(value),
        Kind::Take => Out::Answer(value),
        Kind::Move => Out::Granted(id, value),
    }
}

/// The request reads the tuple, takes it, or holds it; one that has all that it wants has ended.
fn serve(
    tables: &mut Tables,
    alloc: Global,
    kind: Kind,
    id: u64,
    tuple: u64,
) -> Result<(), AllocError>
    ensures served { OnOk result (ServesAs kind id tuple tables.old tables.new) }
    ensures stays { Stays tables.old tables.new }
{
    match kind {
        Kind::Read => tables.end_request(Last::Done, id),
        Kind::Take => {
            tables.end_tuple(alloc, Last::Taken, tuple)?;
            tables.end_request(Last::Done, id)
        }
        Kind::Move => {
            tables.hold(alloc, tuple, id)?;
            tables.set_request(id, RequestState::Granted(tuple))
        }
    }
}

/// The answer of the caller's own request, which ends as it gives it; a tuple that it holds is told again.
///
/// Errors: only want of memory; what is ahead may then be changed in part, and what stands is as it was.
/// Source: docs/SPACE.md, Cases, Collect.
pub fn collect(tables: &mut Tables, alloc: Global, caller: u64, id: u64) -> Result<Out, AllocError>
    ensures made { IfOk result (λ o. Makes
        (λ s. on_own s caller (λ r. collect_spec s r r.state) (found s id))
        tables.old tables.new o) }
    ensures stays { Stays tables.old tables.new }
{
    match refusal(tables, caller, id) {
        Some(out) => Ok(out),
        None => collect_own(tables, alloc, id),
    }
}

fn collect_own(tables: &mut Tables, alloc: Global, id: u64) -> Result<Out, AllocError>
    ensures made { IfOk result
        (λ o. MakesFor id (λ r s. collect_spec s r r.state) tables.old tables.new o) }
    ensures stays { Stays tables.old tables.new }
{
    let Some(row) = tables.requests.row(id) else {
        return Ok(Out::WrongKind);
    };
    match &row.state {
        RequestState::Reserved => Ok(Out::WrongKind),
        RequestState::Parked => Ok(Out::NotYet),
        RequestState::Granted(tuple) => { Ok(Out::Granted(id, value_held(tables, alloc, *tuple)?)) }
        RequestState::Answered(out) => {
            let answer = out.copy(alloc)?;
            end_with(tables, id, answer)
        }
    }
}

/// The request ends with that answer, as who is answered so ends.
fn end_with(tables: &mut Tables, id: u64, answer: Out) -> Result<Out, AllocError>
    ensures made { IfOk result (λ o. MakesFor id
        (λ r s. answers (request_ended (last_of_spec answer) id s) answer)
        tables.old tables.new o) }
    ensures stays { Stays tables.old tables.new }
{
    match tables.end_request(last_of(&answer), id) {
        Ok(()) => Ok(answer),
        Err(refused) => {
            drop(answer);
            Err(refused)
        }
    }
}

/// Whether the tuple that the caller's own request holds has arrived: then it is taken, and else it is let go.
///
/// Errors: only want of memory; what is ahead may then be changed in part, and what stands is as it was.
/// Source: docs/SPACE.md, Cases, Settle.
pub fn settle(
    tables: &mut Tables,
    alloc: Global,
    caller: u64,
    id: u64,
    ok: bool,
) -> Result<Out, AllocError>
    ensures made { IfOk result (λ o. Makes
        (λ s. on_own s caller (λ r. settle_spec s r ok r.state) (found s id))
        tables.old tables.new o) }
    ensures stays { Stays tables.old tables.new }
{
    match refusal(tables, caller, id) {
        Some(out) => Ok(out),
        None => settle_own(tables, alloc, id, ok),
    }
}

fn settle_own(tables: &mut Tables, alloc: Global, id: u64, ok: bool) -> Result<Out, AllocError>
    ensures made { IfOk result
        (λ o. MakesFor id (λ r s. settle_spec s r ok r.state) tables.old tables.new o) }
    ensures stays { Stays tables.old tables.new }
{
    let Some(row) = tables.requests.row(id) else {
        return Ok(Out::WrongKind);
    };
    match &row.state {
        RequestState::Reserved => Ok(Out::WrongKind),
        RequestState::Parked => Ok(Out::WrongKind),
        RequestState::Granted(tuple) => {
            let tuple = *tuple;
            settle_granted(tables, alloc, id, tuple, ok)
        }
        RequestState::Answered(_) => Ok(Out::WrongKind),
    }
}

fn settle_granted(
    tables: &mut Tables,
    alloc: Global,
    id: u64,
    tuple: u64,
    ok: bool,
) -> Result<Out, AllocError>
    ensures made { IfOk result (λ o. MakesFor id (λ r s. answers
        (request_ended last.Done id (settle_tuple_spec ok (tuple_at s tuple) s)) out.Plain)
        tables.old tables.new o) }
    ensures stays { Stays tables.old tables.new }
{
    settle_tuple(tables, alloc, ok, tuple)?;
    tables.end_request(Last::Done, id)?;
    Ok(Out::Plain)
}

/// The tuple that was held is taken, or is let go and ends where it was canceled meanwhile.
fn settle_tuple(tables: &mut Tables, alloc: Global, ok: bool, id: u64) -> Result<(), AllocError>
    ensures becomes { OnOk result
        (Becomes (λ s. settle_tuple_spec ok (tuple_at s id) s) tables.old tables.new) }
    ensures stays { Stays tables.old tables.new }
{
    let Some(row) = tables.tuples.row(id) else {
        return Ok(());
    };
    if ok {
        tables.end_tuple(alloc, Last::Taken, id)
    } else if row.marked {
        tables.end_tuple(alloc, Last::Canceled, id)
    } else {
        tables.release(alloc, id)
    }
}

/// The caller's own request is given up: one that was not served yet ends, and of another the answer is collected.
///
/// Errors: only want of memory; what is ahead may then be changed in part, and what stands is as it was.
/// Source: docs/SPACE.md, Cases, Withdraw.
pub(crate) fn withdraw_request(
    tables: &mut Tables,
    alloc: Global,
    caller: u64,
    id: u64,
) -> Result<Out, AllocError>
    ensures made { IfOk result (λ o. MakesFor id
        (λ r s. if r.caller == caller then withdraw_request_spec s r r.state
        else answers s out.WrongKind) tables.old tables.new o) }
    ensures stays { Stays tables.old tables.new }
{
    if is_own(tables, caller, id) {
        withdraw_own(tables, alloc, id)
    } else {
        Ok(Out::WrongKind)
    }
}

fn withdraw_own(tables: &mut Tables, alloc: Global, id: u64) -> Result<Out, AllocError>
    ensures made { IfOk result (λ o. MakesFor id
        (λ r s. withdraw_request_spec s r r.state) tables.old tables.new o) }
    ensures stays { Stays tables.old tables.new }
{
    let Some(row) = tables.requests.row(id) else {
        return Ok(Out::WrongKind);
    };
    match &row.state {
        RequestState::Reserved => end_with(tables, id, Out::Plain),
        RequestState::Parked => end_with(tables, id, Out::WouldWait),
        RequestState::Granted(_) => collect_own(tables, alloc, id),
        RequestState::Answered(_) => collect_own(tables, alloc, id),
    }
}

/// The answer where no request of that caller has the id; None where one has.
fn refusal(tables: &Tables, caller: u64, id: u64) -> Option<Out>
    ensures { (s : Plain) → Holds s (ahead_of tables.now) → result ≡ not_own caller (found s id) }
{
    match tables.ids.look(id) {
        Looked::Live(ObjectKind::Request) => {
            if is_own(tables, caller, id) {
                None
            } else {
                Some(Out::WrongKind)
            }
        }
        Looked::Live(ObjectKind::Entry) => Some(Out::WrongKind),
        Looked::Live(ObjectKind::Notifier) => Some(Out::WrongKind),
        Looked::Ended(_, _) => Some(Out::WrongKind),
        Looked::Recycled => Some(Out::Recycled),
        Looked::Never => Some(Out::Unknown),
    }
}

/// The request with that id is the caller's.
fn is_own(tables: &Tables, caller: u64, id: u64) -> bool
    ensures { result ≡ is_own_spec caller (row_of (λ r. r.id) id tables.now.requests.ahead) }
{
    match tables.requests.row(id) {
        Some(row) => row.caller == caller,
        None => false,
    }
}

/// The value of the tuple with that id.
///
/// Errors: only want of memory.
fn value_held(tables: &Tables, alloc: Global, id: u64) -> Result<Value, AllocError>
    ensures { IfOk result (λ value. value
        ≡ value_at (row_of (λ t. t.id) id tables.now.tuples.ahead)) }
{
    match tables.tuples.row(id) {
        Some(row) => row.value.to_value(alloc),
        None => Ok(Value::nil()),
    }
}

/// How a request ends that is answered so.
fn last_of(out: &Out) -> Last
    ensures { result ≡ last_of_spec out.now }
{
    match out {
        Out::Expired => Last::Expired,
        Out::Canceled => Last::Canceled,
        _ => Last::Done,
    }
}

fn is_reserved(state: &RequestState) -> bool
    ensures { result ≡ is_reserved_spec state.now }
{
    matches!(state, RequestState::Reserved)
}

fn is_read(kind: Kind) -> bool
    ensures { result ≡ is_read_spec kind }
{
    matches!(kind, Kind::Read)
}

fn is_over(now: u64, deadline: Option<u64>) -> bool
    ensures { result ≡ is_over_spec now deadline }
{
    match deadline {
        None => false,
        Some(deadline) => deadline <= now,
    }
}
