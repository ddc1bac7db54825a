ghost use Rattle.std.specs.Prelude.{◌≡◌, ℕ, ◌+◌, ◌-◌, ◌||◌, ◌==◌, nat_le, if◌then◌else◌, ◌^◌, ◌<◌, ◌≤◌, true, IsSome, IfOk, OnOk, OnErr, [], ◌∷◌, ◌++◌, take, drop, length};
ghost use Rattle.std.specs.List.{list_any};
ghost use Rattle.std.specs.Map.{set_value};
ghost use Rattle.std.specs.BTreeMap.{is_at};
ghost use Rattle.std.specs.VecDeque.{deque_capacity};
ghost use Rattle.std.specs.Ordering.{nat_cmp};
ghost use Rattle.drb_ids.specs.Ids.{settled, no_ids, looked_up, live_at, minted, ended_with, MayStart, StartsWith};
ghost use Rattle.rinda_rules.specs.Space.{retained};
ghost use Rattle.drb_ids.specs.Standings.{with_all_live, with_all_ended, standing_at, live_of, kind_by, revived, IsTied, HasRoom, are_minted};

use crate::object::{LiveId, Looked, Standing};
use rinda_rules::{Ended, Last, ObjectKind};
use std::alloc::{AllocError, Global};
use std::collections::{BTreeMap, VecDeque};
use std::marker::Model;

/// How many of the objects that ended are known.
const KEPT: usize = 4_096;

/// The ids that were given out, from 1. Contracts see the next id, the live ids, which rise, and the last 4,096 that
/// ended, in the order in which they ended: as the table stands, and as the turn under way has made it.
///
/// Ids are given out and end ahead of what stands. `commit` makes that stand, and `forget` takes it back. Only giving
/// one out takes memory, what its end will want included.
#[derive(Drop)]
pub struct IdTable {
    given: u64,
    objects: BTreeMap<u64, Standing>,
    ended: VecDeque<Ended>,
    fresh: bool,
    more: usize,
}

impl Model for IdTable {
    ghost use Rattle.drb_ids.specs.Ids.{Ided};
    ghost use Rattle.drb_ids.specs.Standings.{IsTable, HasRoom, stood, ahead_of};
    ghost use Rattle.std.specs.VecDeque.{deque_capacity};

    ghost Value = { Ided };

    ghost view = { λ t. record {
      list = stood t.fresh t.more t.given t.objects.entries t.ended.items;
      ahead = ahead_of t.given t.objects.entries t.ended.items;
    } };

    ghost invariant = { λ t.
        IsTable t.fresh t.more t.given t.objects.entries t.ended.items
        × HasRoom 0 t.objects.entries (deque_capacity t.ended) };
}

impl IdTable {
    /// No id was given out. Takes no memory.
    pub fn new(alloc: Global) -> IdTable
        ensures { result ≡ settled no_ids }
    {
        IdTable {
            given: 0,
            objects: BTreeMap::new(alloc),
            ended: VecDeque::new(alloc),
            fresh: false,
            more: 0,
        }
    }

    /// A table that has this next id, these live ids and these last ones that ended, in the order in which they
    /// ended. Every other id below the next one counts as one that ended before these.
    ///
    /// `next` is at least 1. All ids are from 1 and below `next`, none stands twice, and at most 4,096 have ended.
    /// Errors: only want of memory.
    pub fn start(
        alloc: Global,
        next: u64,
        live: &[LiveId],
        ended: &[Ended],
    ) -> Result<IdTable, AllocError>
        requires { MayStart next live.now ended.now }
        ensures starts { IfOk result (λ t. StartsWith next live.now ended.now t.list) }
        ensures stands { IfOk result (λ t. t ≡ settled t.list) }
    {
        let objects = live_standings(alloc, live)?;
        let objects = ended_standings(objects, ended)?;
        let kept = kept_of(alloc, ended, objects.len())?;
        Ok(IdTable {
            given: next - 1,
            objects,
            ended: kept,
            fresh: false,
            more: 0,
        })
    }

    /// Gives the next id to an object of that kind. A turn gives out one id at most.
    ///
    /// It takes the memory that a later `end` of the id will want.
    /// Fewer than 2^64 - 1 ids may have been given out.
    /// Errors: only want of memory; all is then as before.
    pub fn mint(&mut self, kind: ObjectKind) -> Result<u64, AllocError>
        requires room { self.old.ahead.next < 2 ^ 64 }
        requires once { self.old.list.next ≡ self.old.ahead.next }
        ensures id { IfOk result (λ id. id ≡ self.old.ahead.next) }
        ensures minted { OnOk result (self.new.ahead ≡ minted kind self.old.ahead) }
        ensures list { self.new.list ≡ self.old.list }
        ensures kept { OnErr result (self.new ≡ self.old) }
    {
        make_room(&self.objects, &mut self.ended)?;
        let id = self.given + 1;
        match self.objects.insert(id, Standing::Live(kind)) {
            Ok(_) => {
                self.given = id;
                self.fresh = true;
                Ok(id)
            }
            Err(_) => Err(AllocError),
        }
    }

    /// How many ids were given out, ahead: the next one is one more.
    pub fn given(&self) -> u64
        ensures { result + 1 ≡ self.now.ahead.next }
    {
        self.given
    }

    /// What is known of that id, ahead.
    pub fn look(&self, id: u64) -> Looked
        ensures { result ≡ looked_up self.now.ahead id }
    {
        match standing_of(&self.objects, id) {
            Some(Standing::Live(kind)) => Looked::Live(kind),
            Some(Standing::Ended(kind, last)) => {
                if is_over(&self.ended, id) {
                    Looked::Recycled
                } else {
                    Looked::Ended(kind, last)
                }
            }
            None => unknown(self.given, id),
        }
    }

    /// The object with that id ends so; where none that is live ahead has it, nothing changes. Takes no memory.
    pub fn end(&mut self, id: u64, last: Last)
        ensures ended { self.new.ahead ≡ ended_with id last self.old.ahead }
        ensures list { self.new.list ≡ self.old.list }
    {
        if let Some(kind) = live_kind(&self.objects, id) {
            add_last(&mut self.ended, Ended { id, kind, last });
            set(&mut self.objects, id, Standing::Ended(kind, last));
            self.more += 1;
        }
    }

    /// What is ahead stands. Takes no memory.
    pub fn commit(&mut self)
        ensures { self.new ≡ settled self.old.ahead }
    {
        forget_oldest(&mut self.objects, &mut self.ended);
        self.fresh = false;
        self.more = 0;
    }

    /// What is ahead of what stands is taken back. Takes no memory.
    pub fn forget(&mut self)
        ensures { self.new ≡ settled self.old.list }
    {
        revive(&mut self.objects, &mut self.ended, self.more);
        self.more = 0;
        if self.fresh {
            self.objects.remove(&self.given);
            self.given -= 1;
            self.fresh = false;
        }
    }
}

/// These ids, each of which is live.
fn live_standings(alloc: Global, live: &[LiveId]) -> Result<BTreeMap<u64, Standing>, AllocError>
    ensures { IfOk result (λ objects. objects.entries ≡ with_all_live live.now []) }
{
    let mut objects = BTreeMap::new(alloc);
    for row in live {
        if objects.insert(row.id, Standing::Live(row.kind)).is_err() {
            return Err(AllocError);
        }
    }
    Ok(objects)
}

/// The same with these, each of which has ended.
fn ended_standings(
    mut objects: BTreeMap<u64, Standing>,
    ended: &[Ended],
) -> Result<BTreeMap<u64, Standing>, AllocError>
    ensures { IfOk result (λ all. all.entries ≡ with_all_ended ended.now objects.entries) }
{
    for row in ended {
        let standing = Standing::Ended(row.kind, row.last);
        if objects.insert(row.id, standing).is_err() {
            return Err(AllocError);
        }
    }
    Ok(objects)
}

/// These, in the same order, with room for so many.
fn kept_of(alloc: Global, ended: &[Ended], room: usize) -> Result<VecDeque<Ended>, AllocError>
    ensures items { IfOk result (λ kept. kept.items ≡ ended.now) }
    ensures room { IfOk result (λ kept. room ≤ deque_capacity kept) }
{
    let mut kept = VecDeque::with_capacity(alloc, room)?;
    for row in ended {
        kept.push_back(*row)?;
    }
    Ok(kept)
}

/// Makes room in which all of these will have ended, and one more. It makes twice as much as there was, so that it
/// seldom has to.
fn make_room(
    objects: &BTreeMap<u64, Standing>,
    ended: &mut VecDeque<Ended>,
) -> Result<(), AllocError>
    ensures ended { ended.new.items ≡ ended.old.items }
    ensures wider { deque_capacity ended.old ≤ deque_capacity ended.new }
    ensures room { OnOk result (HasRoom 1 objects.now.entries (deque_capacity ended.new)) }
{
    let ids = objects.len();
    if ids < ended.capacity() {
        return Ok(());
    }
    ended.reserve(2 * ids + 1)
}

/// One more has ended. Takes no memory.
fn add_last(ended: &mut VecDeque<Ended>, row: Ended)
    requires room { length ended.old.items < deque_capacity ended.old }
    ensures ended { ended.new.items ≡ ended.old.items ++ row ∷ [] }
    ensures capacity { deque_capacity ended.old ≤ deque_capacity ended.new }
{
    // There is room, so this never fails.
    let _pushed = ended.push_back(row);
}

/// What that id names, if it names anything.
fn standing_of(objects: &BTreeMap<u64, Standing>, id: u64) -> Option<Standing>
    ensures { result ≡ standing_at id objects.now.entries }
{
    objects.get(&id).copied()
}

/// The kind of the object with that id, where it is live.
fn live_kind(objects: &BTreeMap<u64, Standing>, id: u64) -> Option<ObjectKind>
    ensures { result ≡ kind_by (standing_at id objects.now.entries) }
{
    match standing_of(objects, id) {
        Some(Standing::Live(kind)) => Some(kind),
        _ => None,
    }
}

/// The id is of one that ended before the last so many that are known.
fn is_over(ended: &VecDeque<Ended>, id: u64) -> bool
    ensures { result ≡
        list_any (λ e. e.id == id) (take (length ended.now.items - 4096) ended.now.items) }
{
    let len = ended.len();
    if len <= KEPT {
        return false;
    }
    ended.iter().take(len - KEPT).any(|e| e.id == id)
}

/// What is known of an id that names nothing, where so many were given out.
fn unknown(given: u64, id: u64) -> Looked
    ensures { result ≡ (if id == 0 || nat_le (given + 1) id then Looked.Never
        else Looked.Recycled) }
{
    if id == 0 || given < id {
        Looked::Never
    } else {
        Looked::Recycled
    }
}

/// Of those that ended the oldest are forgotten, as many as there are more than are kept.
fn forget_oldest(objects: &mut BTreeMap<u64, Standing>, ended: &mut VecDeque<Ended>)
    requires tied { IsTied objects.old.entries ended.old.items }
    requires room { HasRoom 0 objects.old.entries (deque_capacity ended.old) }
    ensures tied { IsTied objects.new.entries ended.new.items }
    ensures room { HasRoom 0 objects.new.entries (deque_capacity ended.new) }
    ensures live { live_of objects.new.entries ≡ live_of objects.old.entries }
    ensures minted { (given : ℕ) → are_minted given objects.old.entries ≡ true →
        are_minted given objects.new.entries ≡ true }
    ensures ended { ended.new.items ≡ retained ended.old.items }
{
    let len = ended.len();
    for _ in KEPT..len {
        forget_first(objects, ended);
    }
}

/// The one that ended first is forgotten.
fn forget_first(objects: &mut BTreeMap<u64, Standing>, ended: &mut VecDeque<Ended>)
    requires tied { IsTied objects.old.entries ended.old.items }
    requires room { HasRoom 0 objects.old.entries (deque_capacity ended.old) }
    ensures tied { IsTied objects.new.entries ended.new.items }
    ensures room { HasRoom 0 objects.new.entries (deque_capacity ended.new) }
    ensures live { live_of objects.new.entries ≡ live_of objects.old.entries }
    ensures minted { (given : ℕ) → are_minted given objects.old.entries ≡ true →
        are_minted given objects.new.entries ≡ true }
    ensures ended { ended.new.items ≡ drop 1 ended.old.items }
{
    if let Some(oldest) = ended.pop_front() {
        objects.remove(&oldest.id);
    }
}

/// So many that ended last are live again.
fn revive(objects: &mut BTreeMap<u64, Standing>, ended: &mut VecDeque<Ended>, more: usize)
    requires tied { IsTied objects.old.entries ended.old.items }
    requires room { HasRoom 0 objects.old.entries (deque_capacity ended.old) }
    requires since { more ≤ length ended.old.items }
    ensures tied { IsTied objects.new.entries ended.new.items }
    ensures room { HasRoom 0 objects.new.entries (deque_capacity ended.new) }
    ensures objects { objects.new.entries
        ≡ revived (drop (length ended.old.items - more) ended.old.items) objects.old.entries }
    ensures ended { ended.new.items ≡ take (length ended.old.items - more) ended.old.items }
{
    for _ in 0..more {
        revive_last(objects, ended);
    }
}

/// The one that ended last is live again.
fn revive_last(objects: &mut BTreeMap<u64, Standing>, ended: &mut VecDeque<Ended>)
    requires tied { IsTied objects.old.entries ended.old.items }
    requires room { HasRoom 0 objects.old.entries (deque_capacity ended.old) }
    ensures tied { IsTied objects.new.entries ended.new.items }
    ensures room { HasRoom 0 objects.new.entries (deque_capacity ended.new) }
    ensures objects { objects.new.entries
        ≡ revived (drop (length ended.old.items - 1) ended.old.items) objects.old.entries }
    ensures ended { ended.new.items ≡ take (length ended.old.items - 1) ended.old.items }
{
    if let Some(last) = ended.pop_back() {
        set(objects, last.id, Standing::Live(last.kind));
    }
}

/// What that id names is changed, if it names anything.
fn set(objects: &mut BTreeMap<u64, Standing>, id: u64, standing: Standing)
    ensures { objects.new.entries ≡ set_value (is_at (nat_cmp id)) objects.old.entries standing }
{
    if let Some(place) = objects.get_mut(&id) {
        *place = standing;
    }
}
