//! How a row changes while it stays where it is.

ghost use Rattle.std.specs.Prelude.{◌≡◌};
ghost use Rattle.rinda_bag.specs.Changes.{changed_by};
ghost use Rattle.rinda_rules.specs.Cases.{asked_doubt};

use drb_tree::Remote;
use rinda_rules::Doubt;
use rinda_rules::plain::Entry;
use std::mem;

/// All of a row that can change.
///
/// `deadline` is in milliseconds; None is no deadline.
#[derive(Drop)]
pub struct Standing {
    pub deadline: Option<u64>,
    pub renewer: Option<Remote>,
    pub holder: Option<u64>,
    pub marked: bool,
    pub doubt: Doubt,
}

/// A change of a row that keeps its id and its value.
#[derive(Drop)]
pub enum Change {
    /// A request holds it.
    Hold(u64),
    /// Nobody holds it.
    Release,
    /// It was canceled while it is held.
    Mark,
    /// It has this deadline and this renewer, and no doubt.
    Renew(Option<u64>, Option<Remote>),
    /// Its renewer is to be asked.
    Doubt,
    /// Its renewer is being asked, where it was to be.
    Ask,
    /// It stands so.
    Stand(Standing),
}

/// The row changes so.
pub fn apply(row: &mut Entry, change: Change)
    ensures { row.new ≡ changed_by change row.old }
{
    match change {
        Change::Hold(request) => row.holder = Some(request),
        Change::Release => row.holder = None,
        Change::Mark => row.marked = true,
        Change::Renew(deadline, renewer) => renew(row, deadline, renewer),
        Change::Doubt => row.doubt = Doubt::Waiting,
        Change::Ask => row.doubt = asked(row.doubt),
        Change::Stand(standing) => stand(row, standing),
    }
}

fn renew(row: &mut Entry, deadline: Option<u64>, renewer: Option<Remote>)
    ensures { row.new ≡ changed_by (Change.Renew deadline renewer) row.old }
{
    row.deadline = deadline;
    row.doubt = Doubt::No;
    let before = mem::replace(&mut row.renewer, renewer);
    drop(before);
}

fn stand(row: &mut Entry, standing: Standing)
    ensures { row.new ≡ changed_by (Change.Stand standing) row.old }
{
    row.holder = standing.holder;
    row.marked = standing.marked;
    row.doubt = standing.doubt;
    row.deadline = standing.deadline;
    let before = mem::replace(&mut row.renewer, standing.renewer);
    drop(before);
}

/// A doubt that waited is asked.
fn asked(doubt: Doubt) -> Doubt
    ensures { result ≡ asked_doubt doubt }
{
    match doubt {
        Doubt::No => Doubt::No,
        Doubt::Waiting | Doubt::Asked => Doubt::Asked,
    }
}
