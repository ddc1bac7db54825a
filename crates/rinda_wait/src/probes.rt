//! Where in the index a request lies, and where a tuple meets requests.

ghost use Rattle.std.specs.Prelude.{◌≡◌};
ghost use Rattle.rinda_rules.specs.Space.{is_read};
ghost use Rattle.rinda_wait.specs.Probes.{place as place_spec, place_in, place_at as place_at_spec, probes as probes_spec};

use rinda_marks::{Secret, template_marks, tuple_marks};
use rinda_rules::Kind;
use rinda_rules::plain::Request;
use rinda_tuple::Tuple;

/// The places where a tuple meets requests: that of templates that ask for no mark, and those of its marks.
#[derive(Clone, Copy)]
pub(crate) struct Probes {
    pub(crate) any: Option<u64>,
    pub(crate) first: Option<u64>,
    pub(crate) both: Option<u64>,
}

/// The places where the tuple meets those that read, or the others.
pub(crate) fn probes_of(secret: &Secret, tuple: &Tuple, reads: bool) -> Probes
    ensures { result ≡ probes_spec secret.now tuple.now reads }
{
    let marks = tuple_marks(secret, tuple);
    Probes {
        any: Some(place(reads, None)),
        first: place_at(reads, marks.first),
        both: place_at(reads, marks.second),
    }
}

/// The place of a request.
pub(crate) fn place_of(secret: &Secret, row: &Request) -> u64
    ensures { result ≡ place_in secret.now row.now }
{
    place(
        is_reading(row.kind),
        template_marks(secret, &row.pattern).best(),
    )
}

fn is_reading(kind: Kind) -> bool
    ensures { result ≡ is_read kind }
{
    matches!(kind, Kind::Read)
}

/// The place of a mark: its last bit says whether the requests there read.
fn place(reads: bool, mark: Option<u64>) -> u64
    ensures { result ≡ place_spec reads mark }
{
    let side = if reads { 1 } else { 0 };
    match mark {
        Some(mark) => mark / 2 * 2 + side,
        None => side,
    }
}

fn place_at(reads: bool, mark: Option<u64>) -> Option<u64>
    ensures { result ≡ place_at_spec reads mark }
{
    match mark {
        Some(mark) => Some(place(reads, Some(mark))),
        None => None,
    }
}
