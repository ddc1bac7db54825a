//! What a space is that is opened again after it was stopped.

ghost use Rattle.std.specs.Prelude.{◌≡◌, map, if◌then◌else◌, OnOk, OnErr, IfOk};
ghost use Rattle.rinda_rules.specs.Space.{is_free as is_free_spec};
ghost use Rattle.rinda_rules.specs.Cases.{let_go as let_go_spec};
ghost use Rattle.rinda_rules.specs.Reopened.{all_let_go as all_let_go_spec, all_ended as all_ended_spec, doubt_again as doubt_again_spec, tuple_again as tuple_again_spec, notifier_again as notifier_again_spec, all_doubt_again as all_doubt_again_spec, reopened};

use crate::copies::{copy_entries, copy_entry, copy_notifier, copy_requests};
use crate::row::is_free;
use crate::state::Replay;
use rinda_rules::plain::{Entry, Notifier, Request};
use rinda_rules::{Doubt, Last};
use std::alloc::{AllocError, Global};

impl Replay {
    /// Opens the space again, as after a stop: what is held is let go, every request ends, what was being asked is asked
    /// again, the space is no longer shut, and what is then due ages.
    ///
    /// Errors: only want of memory, which leaves the space as it was.
    /// Source: docs/SPACE.md, Opening again.
    pub fn reopen(&mut self, alloc: Global) -> Result<(), AllocError>
        ensures next { OnOk result (self.new ≡ reopened self.old) }
        ensures err { OnErr result (self.new ≡ self.old) }
    {
        let mut next = self.copy(alloc)?;
        next.open_again(alloc)?;
        *self = next;
        Ok(())
    }

    fn open_again(&mut self, alloc: Global) -> Result<(), AllocError>
        ensures { OnOk result (self.new ≡ reopened self.old) }
    {
        self.let_all_go(alloc)?;
        self.end_requests(alloc)?;
        self.doubt_again(alloc)?;
        self.shut = false;
        self.age(alloc)
    }

    /// Each tuple that is held is free, or ends where it was canceled meanwhile.
    fn let_all_go(&mut self, alloc: Global) -> Result<(), AllocError>
        ensures { OnOk result (self.new ≡ all_let_go_spec self.old.tuples self.old) }
    {
        let rows = copy_entries(alloc, self.tuples.as_slice())?;
        let done = self.let_go_each(alloc, rows.as_slice());
        drop(rows);
        done
    }

    fn let_go_each(&mut self, alloc: Global, rows: &[Entry]) -> Result<(), AllocError>
        ensures { OnOk result (self.new ≡ all_let_go_spec rows.now self.old) }
    {
        for t in rows {
            self.let_go_held(alloc, t)?;
        }
        Ok(())
    }

    /// The tuple is let go, where it is held.
    fn let_go_held(&mut self, alloc: Global, t: &Entry) -> Result<(), AllocError>
        ensures { OnOk result
            (self.new ≡ (if is_free_spec t.now then self.old else let_go_spec t.now self.old)) }
    {
        if is_free(t) {
            Ok(())
        } else {
            self.let_go(alloc, t)
        }
    }

    /// Each request ends.
    fn end_requests(&mut self, alloc: Global) -> Result<(), AllocError>
        ensures { OnOk result (self.new ≡ all_ended_spec self.old.requests self.old) }
    {
        let rows = copy_requests(alloc, self.requests.as_slice())?;
        let done = self.end_each(alloc, rows.as_slice());
        drop(rows);
        done
    }

    fn end_each(&mut self, alloc: Global, rows: &[Request]) -> Result<(), AllocError>
        ensures { OnOk result (self.new ≡ all_ended_spec rows.now self.old) }
    {
        for r in rows {
            self.end_request(alloc, Last::Done, r.id)?;
        }
        Ok(())
    }

    /// Each renewer that was being asked has to be asked again.
    fn doubt_again(&mut self, alloc: Global) -> Result<(), AllocError>
        ensures { OnOk result (self.new ≡ all_doubt_again_spec self.old) }
    {
        let all_tuples = self.tuples.as_slice();
        let all_notifiers = self.notifiers.as_slice();
        let tuples = tuples_again(alloc, all_tuples)?;
        let notifiers = notifiers_again(alloc, all_notifiers)?;
        self.tuples = tuples;
        self.notifiers = notifiers;
        Ok(())
    }
}

fn tuples_again(alloc: Global, rows: &[Entry]) -> Result<Vec<Entry>, AllocError>
    ensures { IfOk result (λ v. v.items ≡ map tuple_again_spec rows.now) }
{
    let mut all = Vec::new(alloc);
    for row in rows {
        all.push(tuple_again(copy_entry(alloc, row)?))?;
    }
    Ok(all)
}

fn tuple_again(mut t: Entry) -> Entry
    ensures { result ≡ tuple_again_spec t }
{
    t.doubt = doubt_again(t.doubt);
    t
}

fn notifiers_again(alloc: Global, rows: &[Notifier]) -> Result<Vec<Notifier>, AllocError>
    ensures { IfOk result (λ v. v.items ≡ map notifier_again_spec rows.now) }
{
    let mut all = Vec::new(alloc);
    for row in rows {
        all.push(notifier_again(copy_notifier(alloc, row)?))?;
    }
    Ok(all)
}

fn notifier_again(mut n: Notifier) -> Notifier
    ensures { result ≡ notifier_again_spec n }
{
    n.doubt = doubt_again(n.doubt);
    n
}

fn doubt_again(doubt: Doubt) -> Doubt
    ensures { result ≡ doubt_again_spec doubt }
{
    match doubt {
        Doubt::No => Doubt::No,
        Doubt::Waiting => Doubt::Waiting,
        Doubt::Asked => Doubt::Waiting,
    }
}
