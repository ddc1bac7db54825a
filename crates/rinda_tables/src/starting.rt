//! The tables of a space that starts from stored rows.

ghost use Rattle.std.specs.Prelude.{◌≡◌, ℕ, true, [], ◌∷◌, ◌++◌, map, is_none, option_copied, OnOk, IfOk};
ghost use Rattle.rinda_rules.specs.Rows.{row_of, rising};
ghost use Rattle.rinda_rules.specs.Starts.{lease_of, entry_of, deadline_of as deadline_of_spec, renewer_by as renewer_by_spec, doubt_of, is_doubted_by};
ghost use Rattle.drb_ids.specs.Ids.{StartsWith, settled as settled_ids};
ghost use Rattle.rinda_notify.specs.Notes.{is_open, settled as settled_notes};
ghost use Rattle.rinda_lease.specs.Orders.{placed};
ghost use Rattle.rinda_tables.specs.Tabled.{Unadded};
ghost use Rattle.rinda_tables.specs.Undoing.{settled as settled_tuples, below};
ghost use Rattle.rinda_tables.specs.Deadlines.{ahead_at, Stands};
ghost use Rattle.rinda_tables.specs.Starting.{live_tuple, live_note, live_in, MayBegin, StartsFrom, tuple_by, note_by, stage_with, tuple_stage_by, note_stage_by, stage_or, stage_in, ArePlaces};

use crate::deadlines::Deadlines;
use crate::requests::Requests;
use crate::tables::Tables;
use crate::tuples::Tuples;
use drb_ids::{IdTable, LiveId};
use drb_tree::Remote;
use rinda_marks::Secret;
use rinda_notify::Notes;
use rinda_rules::plain::Entry;
use rinda_rules::{Doubt, NoteState, ObjectKind, Start, StartLease, StartNote, TupleRow};
use rinda_tuple::copy_renewer;
use std::alloc::{AllocError, Global};
use std::collections::BTreeMap;

impl Tables {
    /// The tables of a space that starts from these rows, which are copied. Nothing is ahead of what stands.
    ///
    /// The rows of each kind rise by id, and all ids are such as `IdTable::start` wants them. The leases may stand in any
    /// order. Under the secret nobody can choose values that fall together in an index.
    /// Errors: only want of memory.
    /// Source: docs/SPACE.md, Opening again.
    pub fn start(alloc: Global, secret: Secret, start: &Start) -> Result<Tables, AllocError>
        requires { MayBegin start.now }
        ensures holds { IfOk result (λ t. StartsFrom start.entry.now t) }
        ensures unadded { IfOk result Unadded }
    {
        let leases = start.leases.as_slice();
        let places = places_of(alloc, leases)?;
        let ids = ids_from(alloc, start)?;
        let deadlines = deadlines_from(alloc, start, &places)?;
        let notes = notes_from(alloc, start.notes.as_slice(), leases, &places)?;
        let tuples = tuples_from(alloc, secret, start.tuples.as_slice(), leases, &places)?;
        Ok(Tables {
            clock: start.now,
            shut: false,
            stood_at: start.now,
            stood_shut: false,
            ids,
            tuples,
            requests: Requests::new(alloc, secret),
            notes,
            deadlines,
        })
    }
}

/// The ids that the rows have, and those that ended.
///
/// Errors: only want of memory.
fn ids_from(alloc: Global, start: &Start) -> Result<IdTable, AllocError>
    requires { MayBegin start.now }
    ensures starts { IfOk result (λ t.
        StartsWith start.entry.now.next (live_in start.entry.now) start.entry.now.ended t.list) }
    ensures stands { IfOk result (λ t. t ≡ settled_ids t.list) }
{
    let mut live = Vec::new(alloc);
    add_tuple_ids(&mut live, start.tuples.as_slice())?;
    add_note_ids(&mut live, start.notes.as_slice())?;
    IdTable::start(alloc, start.next, &live, start.ended.as_slice())
}

fn add_tuple_ids(live: &mut Vec<LiveId>, rows: &[TupleRow]) -> Result<(), AllocError>
    ensures { OnOk result (live.new.items ≡ live.old.items ++ map live_tuple rows.now) }
{
    for row in rows {
        live.push(LiveId {
            id: row.id,
            kind: ObjectKind::Entry,
        })?;
    }
    Ok(())
}

fn add_note_ids(live: &mut Vec<LiveId>, notes: &[StartNote]) -> Result<(), AllocError>
    ensures { OnOk result (live.new.items ≡ live.old.items ++ map live_note notes.now) }
{
    for note in notes {
        live.push(LiveId {
            id: note.row.id,
            kind: ObjectKind::Notifier,
        })?;
    }
    Ok(())
}

/// The tuples of these rows, each with its lease.
///
/// Errors: only want of memory.
fn tuples_from(
    alloc: Global,
    secret: Secret,
    rows: &[TupleRow],
    leases: &[StartLease],
    places: &BTreeMap<u64, usize>,
) -> Result<Tuples, AllocError>
    requires rise { rising (λ t. t.id) rows.now ≡ true }
    requires places { ArePlaces leases.now places.now.entries }
    ensures { IfOk result (λ t. t ≡ settled_tuples (map (tuple_by leases.now) rows.now)) }
{
    let mut tuples = Tuples::new(alloc, secret);
    for row in rows {
        load_tuple(&mut tuples, alloc, row, find_lease(leases, places, row.id))?;
    }
    Ok(tuples)
}

/// Adds a stored tuple with its lease, whose id is above all others. Nothing may be ahead of what stands.
///
/// Errors: only want of memory.
fn load_tuple(
    tuples: &mut Tuples,
    alloc: Global,
    row: &TupleRow,
    lease: Option<&StartLease>,
) -> Result<(), AllocError>
    requires above { below (λ t. t.id) row.now.id tuples.old.list ≡ true }
    requires settled { tuples.old ≡ settled_tuples tuples.old.list }
    ensures { OnOk result (tuples.new ≡ settled_tuples
        (tuples.old.list ++ entry_of row.now (option_copied lease.entry) ∷ [])) }
{
    let entry = entry_from(alloc, row, lease)?;
    tuples.put(entry)?;
    tuples.commit();
    Ok(())
}

/// The tuple of that row, with that lease.
///
/// Errors: only want of memory.
fn entry_from(
    alloc: Global,
    row: &TupleRow,
    lease: Option<&StartLease>,
) -> Result<Entry, AllocError>
    ensures { IfOk result (λ entry. entry ≡ entry_of row.now (option_copied lease.entry)) }
{
    let renewer = renewer_by(alloc, lease)?;
    match row.value.copy(alloc) {
        Ok(value) => Ok(Entry {
            id: row.id,
            value,
            deadline: deadline_of(lease),
            renewer,
            holder: row.holder,
            marked: row.marked,
            doubt: doubt_by(lease),
        }),
        Err(refused) => {
            drop(renewer);
            Err(refused)
        }
    }
}

/// These notifiers with their queues, each with its lease.
///
/// Errors: only want of memory.
fn notes_from(
    alloc: Global,
    stored: &[StartNote],
    leases: &[StartLease],
    places: &BTreeMap<u64, usize>,
) -> Result<Notes, AllocError>
    requires rise { rising (λ n. n.row.id) stored.now ≡ true }
    requires places { ArePlaces leases.now places.now.entries }
    ensures { IfOk result (λ n. n ≡ settled_notes (map (note_by leases.now) stored.now)) }
{
    let mut notes = Notes::new(alloc);
    for note in stored {
        notes.load(alloc, note, find_lease(leases, places, note.row.id))?;
    }
    Ok(notes)
}

/// The deadlines of all rows, and whose renewers are to be asked.
///
/// Errors: only want of memory.
fn deadlines_from(
    alloc: Global,
    start: &Start,
    places: &BTreeMap<u64, usize>,
) -> Result<Deadlines, AllocError>
    requires begins { MayBegin start.now }
    requires places { ArePlaces start.now.leases places.now.entries }
    ensures { IfOk result (λ d. Stands (stage_in start.entry.now) d) }
{
    let mut deadlines = Deadlines::new(alloc);
    let leases = start.leases.as_slice();
    stand_notes(&mut deadlines, start.notes.as_slice(), leases, places)?;
    stand_tuples(&mut deadlines, start.tuples.as_slice(), leases, places)?;
    Ok(deadlines)
}

fn stand_tuples(
    deadlines: &mut Deadlines,
    rows: &[TupleRow],
    leases: &[StartLease],
    places: &BTreeMap<u64, usize>,
) -> Result<(), AllocError>
    requires rise { rising (λ t. t.id) rows.now ≡ true }
    requires places { ArePlaces leases.now places.now.entries }
    requires settled { Stands (λ q. ahead_at deadlines.old q) deadlines.old }
    ensures { OnOk result (Stands (λ q. stage_or (tuple_stage_by leases.now)
        (row_of (λ t. t.id) q rows.now) (ahead_at deadlines.old q)) deadlines.new) }
{
    for row in rows {
        let lease = find_lease(leases, places, row.id);
        stand_by(deadlines, row.id, lease, is_free(row))?;
    }
    Ok(())
}

fn stand_notes(
    deadlines: &mut Deadlines,
    stored: &[StartNote],
    leases: &[StartLease],
    places: &BTreeMap<u64, usize>,
) -> Result<(), AllocError>
    requires rise { rising (λ n. n.row.id) stored.now ≡ true }
    requires places { ArePlaces leases.now places.now.entries }
    requires settled { Stands (λ q. ahead_at deadlines.old q) deadlines.old }
    ensures { OnOk result (Stands (λ q. stage_or (note_stage_by leases.now)
        (row_of (λ n. n.row.id) q stored.now) (ahead_at deadlines.old q)) deadlines.new) }
{
    for note in stored {
        let lease = find_lease(leases, places, note.row.id);
        stand_by(deadlines, note.row.id, lease, runs(note.row.state))?;
    }
    Ok(())
}

/// The id stands where that lease does, of a row that can expire or not. Nothing is ahead of that.
///
/// Errors: only want of memory.
fn stand_by(
    deadlines: &mut Deadlines,
    id: u64,
    lease: Option<&StartLease>,
    expires: bool,
) -> Result<(), AllocError>
    ensures { OnOk result (Stands (placed id (stage_with (option_copied lease.entry) expires)
        (ahead_at deadlines.old)) deadlines.new) }
{
    deadlines.stand(id, doubt_by(lease), expires, deadline_of(lease))?;
    deadlines.commit();
    Ok(())
}

/// Where the first lease of each id is.
///
/// Errors: only want of memory.
fn places_of(alloc: Global, leases: &[StartLease]) -> Result<BTreeMap<u64, usize>, AllocError>
    ensures { IfOk result (λ places. ArePlaces leases.now places.entries) }
{
    let mut places = BTreeMap::new(alloc);
    // From the last one, so that the first one of an id stays.
    for place in (0..leases.len()).rev() {
        match places.insert(leases[place].id, place) {
            Ok(_) => {}
            Err(_) => return Err(AllocError),
        }
    }
    Ok(places)
}

/// The lease of that id, if it has one.
fn find_lease<'a>(
    leases: &'a [StartLease],
    places: &BTreeMap<u64, usize>,
    id: u64,
) -> Option<&'a StartLease>
    requires { ArePlaces leases.now places.now.entries }
    ensures { option_copied result ≡ lease_of id leases.now }
{
    match places.get(&id) {
        Some(place) => leases.get(*place),
        None => None,
    }
}

/// A copy of who is asked for more time.
///
/// Errors: only want of memory.
fn renewer_by(alloc: Global, lease: Option<&StartLease>) -> Result<Option<Remote>, AllocError>
    ensures { IfOk result (λ renewer. renewer ≡ renewer_by_spec (option_copied lease.entry)) }
{
    match lease {
        Some(lease) => copy_renewer(alloc, &lease.renewer),
        None => Ok(None),
    }
}

/// When the lease is over.
fn deadline_of(lease: Option<&StartLease>) -> Option<u64>
    ensures { result ≡ deadline_of_spec (option_copied lease.entry) }
{
    match lease {
        Some(lease) => lease.deadline,
        None => None,
    }
}

/// Whether the renewer has to be asked.
fn doubt_by(lease: Option<&StartLease>) -> Doubt
    ensures { result ≡ doubt_of (is_doubted_by (option_copied lease.entry)) }
{
    match lease {
        Some(lease) if lease.doubted => Doubt::Waiting,
        _ => Doubt::No,
    }
}

/// Nobody holds the tuple of that row.
fn is_free(row: &TupleRow) -> bool
    ensures { result ≡ is_none row.now.holder }
{
    row.holder.is_none()
}

fn runs(state: NoteState) -> bool
    ensures { result ≡ is_open state }
{
    match state {
        NoteState::Running => true,
        NoteState::Closed(_) => false,
    }
}
