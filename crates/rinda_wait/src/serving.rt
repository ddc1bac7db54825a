//! Which requests a tuple serves.

ghost use Rattle.std.specs.Prelude.{◌≡◌, ◌||◌};
ghost use Rattle.rinda_rules.specs.Space.{is_reserved, is_parked, is_doubted};
ghost use Rattle.rinda_wait.specs.Waiting.{waits_for as waits_for_spec, reads as reads_spec, takes as takes_spec};

use rinda_rules::plain::Request;
use rinda_rules::{Doubt, Kind, RequestState};
use rinda_tuple::{Tuple, is_match};

/// The request waits to read the tuple.
pub(crate) fn reads(row: &Request, tuple: &Tuple) -> bool
    ensures { result ≡ reads_spec tuple.now row.now }
{
    match row.kind {
        Kind::Read => waits_for(row, tuple),
        Kind::Take | Kind::Move => false,
    }
}

/// The request waits to take or to hold the tuple.
pub(crate) fn takes(row: &Request, tuple: &Tuple) -> bool
    ensures { result ≡ takes_spec tuple.now row.now }
{
    match row.kind {
        Kind::Read => false,
        Kind::Take | Kind::Move => waits_for(row, tuple),
    }
}

/// The request is parked and not doubted, and its pattern matches the tuple.
fn waits_for(row: &Request, tuple: &Tuple) -> bool
    ensures { result ≡ waits_for_spec tuple.now row.now }
{
    parked(&row.state) && !doubted(row.doubt) && is_match(&row.pattern, tuple)
}

/// The state is reserved or parked.
pub(crate) fn open(state: &RequestState) -> bool
    ensures { result ≡ (is_reserved state.now || is_parked state.now) }
{
    matches!(state, RequestState::Reserved | RequestState::Parked)
}

/// The state is parked.
fn parked(state: &RequestState) -> bool
    ensures { result ≡ is_parked state.now }
{
    matches!(state, RequestState::Parked)
}

fn doubted(doubt: Doubt) -> bool
    ensures { result ≡ is_doubted doubt }
{
    match doubt {
        Doubt::No => false,
        Doubt::Waiting | Doubt::Asked => true,
    }
}
