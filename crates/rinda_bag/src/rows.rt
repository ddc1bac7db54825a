//! Rows by their ids.

ghost use Rattle.std.specs.Prelude.{◌≡◌, ◌≤◌, ◌+◌, IsTrue, Some, None, [], ◌∷◌, ◌++◌, length, option_copied, OnOk, OnErr, IfOk};
ghost use Rattle.rinda_rules.specs.Rows.{row_of, without, changed};
ghost use Rattle.rinda_bag.specs.Tables.{below};
ghost use Rattle.rinda_bag.specs.Wanted.{least_wanted, all_wanted, opening_rows};
ghost use Rattle.rinda_bag.specs.Changes.{changed_by};
ghost use Rattle.rinda_bag.specs.Lending.{with_value};
ghost use Rattle.rinda_rules.specs.declared.plain.Entry as entry;

use crate::change::{Change, apply};
use crate::wanting::{is_wanted, tries};
use rinda_rules::plain::Entry;
use rinda_tuple::{Steps, Template, Tuple};
use std::alloc::{AllocError, AllocFailed, Global};
use std::collections::BTreeMap;
use std::marker::Model;
use std::mem;
use std::sync::ledger::Ledger;

/// Rows by their ids. Contracts see the list of them, in rising id.
#[derive(Drop)]
pub struct Rows {
    map: BTreeMap<u64, Entry>,
}

impl Model for Rows {
    ghost use Rattle.std.specs.Prelude.{List};
    ghost use Rattle.std.specs.Map.{values_of};
    ghost use Rattle.rinda_rules.specs.declared.plain.Entry.{Entry};
    ghost use Rattle.rinda_bag.specs.Tables.{IsTable};
    ghost use Rattle.drb_tree.specs.contracts.Tree as e;
    ghost use Rattle.std.specs.Coded.{codes};

    ghost Value = { List Entry };

    ghost coded = { Prim.hlevel (codes, e.the_row.coded) };

    ghost view = { λ t. values_of t.map.entries };

    ghost invariant = { λ t. IsTable t.map.entries };
}

impl Rows {
    /// No row. Takes no memory.
    pub fn new(alloc: Global) -> Rows
        ensures { result ≡ [] }
    {
        Rows {
            map: BTreeMap::new(alloc),
        }
    }

    /// How many rows there are.
    pub fn len(&self) -> usize
        ensures { result ≡ length self.now }
    {
        self.map.len()
    }

    /// The row with that id.
    pub fn get(&self, id: u64) -> Option<&Entry>
        ensures { option_copied result ≡ row_of (λ t. t.id) id self.now }
    {
        self.map.get(&id)
    }

    /// The least id of a row that a search may answer, among all.
    pub fn find<L: Ledger>(
        &self,
        pattern: &Template,
        free: bool,
        now: u64,
        steps: &mut Steps<L>,
    ) -> Option<u64>
        ensures least { result ≡ least_wanted now free pattern.now self.now }
        ensures few { steps.new ≤ steps.old + opening_rows pattern.now self.now }
    {
        for row in self.map.values() {
            if tries(row, pattern, free, now, steps) {
                return Some(row.id);
            }
        }
        None
    }

    /// The ids of all live matches, among all.
    ///
    /// Errors: only want of memory.
    pub fn find_all(
        &self,
        alloc: Global,
        pattern: &Template,
        now: u64,
    ) -> Result<Vec<u64>, AllocError>
        ensures { IfOk result (λ ids. ids.items ≡ all_wanted now pattern.now self.now) }
    {
        let mut found = Vec::new(alloc);
        for row in self.map.values() {
            if is_wanted(row, pattern, false, now) {
                found.push(row.id)?;
            }
        }
        Ok(found)
    }

    /// Adds a row, whose id is above all others.
    ///
    /// Errors: only want of memory; the row is dropped, and nothing changes.
    pub fn put(&mut self, row: Entry) -> Result<(), AllocError>
        requires { IsTrue (below row.id self.old) }
        ensures ok { OnOk result (self.new ≡ self.old ++ row ∷ []) }
        ensures kept { OnErr result (self.new ≡ self.old) }
    {
        match self.map.insert(row.id, row) {
            Ok(_) => Ok(()),
            Err(refused) => {
                drop_refused(refused);
                Err(AllocError)
            }
        }
    }

    /// Takes the row with that id out.
    pub fn take_out(&mut self, id: u64) -> Option<Entry>
        ensures row { result ≡ row_of (λ t. t.id) id self.old }
        ensures rest { self.new ≡ without (λ t. t.id) id self.old }
    {
        self.map.remove(&id)
    }

    /// The row with that id, if there is one, has this tuple from now on. Answers the one that it had.
    pub fn swap_value(&mut self, id: u64, value: Tuple) -> Tuple
        ensures before { (t : entry.Entry) → row_of (λ t. t.id) id self.old ≡ Some t →
            result ≡ t.value }
        ensures rows { self.new ≡ changed (λ t. t.id) id (with_value value) self.old }
    {
        match self.map.get_mut(&id) {
            Some(row) => swapped(row, value),
            None => value,
        }
    }

    /// The row with that id, if there is one, changes so.
    pub fn change(&mut self, id: u64, change: Change)
        ensures { self.new ≡ changed (λ t. t.id) id (changed_by change) self.old }
    {
        match self.map.get_mut(&id) {
            Some(row) => apply(row, change),
            None => drop(change),
        }
    }
}

/// The row has this tuple from now on. Answers the one that it had.
fn swapped(row: &mut Entry, value: Tuple) -> Tuple
    ensures before { result ≡ row.old.value }
    ensures row { row.new ≡ with_value value row.old }
{
    mem::replace(&mut row.value, value)
}

/// Drops a row for which there was no memory.
fn drop_refused(refused: AllocFailed<(u64, Entry)>) {
    drop(refused);
}
