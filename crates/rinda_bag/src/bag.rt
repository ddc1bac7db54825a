ghost use Rattle.std.specs.Prelude.{◌≡◌, ◌≤◌, ◌+◌, ◌==◌, IsTrue, IsSome, Some, [], ◌∷◌, ◌++◌, length, option_copied, OnOk, OnErr, IfOk};
ghost use Rattle.rinda_rules.specs.Rows.{row_of, without, changed};
ghost use Rattle.rinda_rules.specs.Phases.{held_by, doubt_tuple};
ghost use Rattle.rinda_rules.specs.Cases.{renewed_tuple};
ghost use Rattle.rinda_bag.specs.Tables.{below};
ghost use Rattle.rinda_bag.specs.Changes.{changed_by, let_go, marked, asked, stood};
ghost use Rattle.rinda_bag.specs.Wanted.{least_wanted, all_wanted, opening_rows};

use crate::change::{Change, Standing};
use crate::keys::{add_keys, bounded, find_all_under, find_under, remove_keys};
use crate::rows::Rows;
use drb_tree::Remote;
use rinda_marks::{Secret, template_marks, tuple_marks};
use rinda_rules::plain::Entry;
use rinda_tuple::{Steps, Template};
use std::alloc::{AllocError, Global};
use std::collections::BTreeSet;
use std::marker::Model;
use std::sync::ledger::Ledger;

/// The tuples of a space. Contracts see the list of their rows, in rising id.
///
/// Beside the rows stands an index by the first value of each tuple, and by its first two, where these are symbols,
/// texts or integers.
/// Source: docs/DECISIONS.md, Tables of the space.
#[derive(Drop)]
pub struct Bag {
    pub(crate) secret: Secret,
    pub(crate) rows: Rows,
    pub(crate) keys: BTreeSet<u128>,
}

impl Model for Bag {
    ghost use Rattle.std.specs.Prelude.{List};
    ghost use Rattle.rinda_rules.specs.declared.plain.Entry.{Entry};
    ghost use Rattle.rinda_bag.specs.Indexes.{IsIndexed};
    ghost use Rattle.drb_tree.specs.contracts.Tree as e;
    ghost use Rattle.std.specs.Coded.{codes};

    ghost Value = { List Entry };

    ghost coded = { Prim.hlevel (codes, e.the_row.coded) };

    ghost view = { λ b. b.rows };

    ghost invariant = { λ b. IsIndexed b.secret b.rows b.keys.keys };
}

impl Bag {
    /// No row. Takes no memory.
    ///
    /// Under the secret nobody can choose tuples that fall together in the index.
    pub fn new(alloc: Global, secret: Secret) -> Bag
        ensures { result ≡ [] }
    {
        Bag {
            secret,
            rows: Rows::new(alloc),
            keys: BTreeSet::new(alloc),
        }
    }

    /// How many rows there are.
    pub fn len(&self) -> u64
        ensures { result ≡ length self.now }
    {
        self.rows.len() as u64
    }

    /// There is no row.
    pub fn is_empty(&self) -> bool
        ensures { result ≡ (length self.now == 0) }
    {
        self.rows.len() == 0
    }

    /// Adds a row, whose id is above all others.
    ///
    /// Errors: only want of memory; the row is dropped, and all is as before.
    /// Source: docs/SPACE.md, Rows.
    pub fn put(&mut self, row: Entry) -> Result<(), AllocError>
        requires { IsTrue (below row.id self.old) }
        ensures ok { OnOk result (self.new ≡ self.old ++ row ∷ []) }
        ensures kept { OnErr result (self.new ≡ self.old) }
    {
        let id = bounded(row.id);
        let marks = tuple_marks(&self.secret, &row.value);
        self.rows.put(row)?;
        if add_keys(&mut self.keys, marks, id) {
            return Ok(());
        }
        drop(self.rows.take_out(id));
        Err(AllocError)
    }

    /// The row with that id.
    pub fn row(&self, id: u64) -> Option<&Entry>
        ensures { option_copied result ≡ row_of (λ t. t.id) id self.now }
    {
        self.rows.get(id)
    }

    /// The least id of a live row that the template matches; with `free`, of one that nobody holds. None exactly where
    /// there is none.
    ///
    /// `now` is in milliseconds. It takes at most as many steps, calls of `matches`, as rows open as the template does:
    /// where the template's first element is a symbol, a text or an integer, as rows have the same first value, and
    /// where its first two are, as rows have both.
    /// Source: docs/SPACE.md, Matching and Serve.
    pub fn find<L: Ledger>(
        &self,
        pattern: &Template,
        free: bool,
        now: u64,
        steps: &mut Steps<L>,
    ) -> Option<u64>
        ensures least { result ≡ least_wanted now free pattern.now self.now }
        ensures few { steps.new ≤ steps.old + opening_rows pattern.now self.now }
    {
        match template_marks(&self.secret, pattern).best() {
            Some(mark) => find_under(&self.rows, &self.keys, mark, pattern, free, now, steps),
            None => self.rows.find(pattern, free, now, steps),
        }
    }

    /// The ids of all live rows that the template matches, in rising order.
    ///
    /// Errors: only want of memory.
    /// Source: docs/SPACE.md, Matching.
    pub fn find_all(
        &self,
        alloc: Global,
        pattern: &Template,
        now: u64,
    ) -> Result<Vec<u64>, AllocError>
        ensures { IfOk result (λ ids. ids.items ≡ all_wanted now pattern.now self.now) }
    {
        match template_marks(&self.secret, pattern).best() {
            Some(mark) => find_all_under(alloc, &self.rows, &self.keys, mark, pattern, now),
            None => self.rows.find_all(alloc, pattern, now),
        }
    }

    /// That request holds the row with that id.
    pub fn hold(&mut self, id: u64, request: u64)
        ensures { self.new ≡ changed (λ t. t.id) id (held_by request) self.old }
    {
        self.change(id, Change::Hold(request));
    }

    /// Nobody holds the row with that id any more.
    pub fn release(&mut self, id: u64)
        ensures { self.new ≡ changed (λ t. t.id) id let_go self.old }
    {
        self.change(id, Change::Release);
    }

    /// The row with that id was canceled while it is held.
    pub fn mark(&mut self, id: u64)
        ensures { self.new ≡ changed (λ t. t.id) id marked self.old }
    {
        self.change(id, Change::Mark);
    }

    /// The row with that id has this deadline, in milliseconds, and this renewer, and no doubt.
    pub fn renew(&mut self, id: u64, deadline: Option<u64>, renewer: Option<Remote>)
        ensures { self.new ≡ changed (λ t. t.id) id (renewed_tuple deadline renewer) self.old }
    {
        self.change(id, Change::Renew(deadline, renewer));
    }

    /// The renewer of the row with that id is to be asked.
    pub fn doubt(&mut self, id: u64)
        ensures { self.new ≡ changed (λ t. t.id) id doubt_tuple self.old }
    {
        self.change(id, Change::Doubt);
    }

    /// The renewer of the row with that id is being asked, where it was to be.
    pub fn ask(&mut self, id: u64)
        ensures { self.new ≡ changed (λ t. t.id) id asked self.old }
    {
        self.change(id, Change::Ask);
    }

    /// All that can change of the row with that id is this.
    pub fn stand(&mut self, id: u64, standing: Standing)
        ensures { self.new ≡ changed (λ t. t.id) id (stood standing) self.old }
    {
        self.change(id, Change::Stand(standing));
    }

    /// Takes the row with that id out, which is there.
    pub fn take_out(&mut self, id: u64) -> Entry
        requires { IsSome (row_of (λ t. t.id) id self.old) }
        ensures row { row_of (λ t. t.id) id self.old ≡ Some result }
        ensures rest { self.new ≡ without (λ t. t.id) id self.old }
    {
        let row = self.rows.take_out(id).unwrap();
        remove_keys(&mut self.keys, tuple_marks(&self.secret, &row.value), id);
        row
    }

    /// The row with that id, if there is one, changes so. Its keys stay.
    fn change(&mut self, id: u64, change: Change)
        ensures { self.new ≡ changed (λ t. t.id) id (changed_by change) self.old }
    {
        self.rows.change(id, change);
    }
}
