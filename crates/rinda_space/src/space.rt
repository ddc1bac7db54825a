//! A space that keeps its history.

ghost use Rattle.std.specs.Prelude.{◌≡◌, ◌+◌, ◌<◌, ◌≤◌, ◌^◌, [], length, Some, None, IfOk, IfErr};
ghost use Rattle.rinda_rules.specs.declared.journal.JournalError.TheVariants.{Full};
ghost use Rattle.rinda_rules.specs.Space.{Plain};
ghost use Rattle.rinda_rules.specs.Legal.{plain_from};
ghost use Rattle.rinda_space.specs.Spaces.{Spaced, StartsAt, TurnsTo, IsLegal, MayStart, NamesLast, error_of as error_of_spec};
ghost use Rattle.rinda_space.specs.Begins.{Begun, KeepsList, IsMade};

use crate::making::step;
use crate::turned::{TurnError, Turned};
use http_server::Log;
use rinda_cases::is_nothing;
use rinda_marks::Secret;
use rinda_rules::{Event, Journal, JournalError, Out, Picks, Start};
use rinda_tables::Tables;
use std::alloc::{AllocError, Global};
use std::marker::Model;

/// A space whose turns a journal keeps. Contracts see the stored rows that it starts from, if any, the turns, and how
/// many there may be.
#[derive(Drop)]
pub struct Space<J: Journal> {
    tables: Tables,
    journal: J,
    start: Log<Start, bool>,
    // while there are fewer turns, one more id can be given out
    room: u64,
    // what the last turn changed
    changed: Vec<u64>,
    alloc: Global,
}

impl<J: Journal> Model for Space<J> {
    ghost use Rattle.rinda_space.specs.Spaces.{Spaced, spaced, start_of, IsSpace};
    ghost use Rattle.drb_tree.specs.contracts.Tree as e;
    ghost use Rattle.std.specs.Coded.{codes};

    ghost Value = { Spaced };

    ghost coded = { Prim.hlevel (codes, e.the_row.coded) };

    ghost view = { λ s. spaced (start_of s.start.items) (J.turns s.journal) (J.cap s.journal) };

    ghost invariant = { λ s.
        IsSpace (spaced (start_of s.start.items) (J.turns s.journal) (J.cap s.journal))
        s.room s.changed.items s.tables };
}

impl<J: Journal> Space<J> {
    /// The space before the first turn, over a journal without turns. Takes no memory.
    ///
    /// Under the secret nobody can choose values that fall together in an index.
    pub fn new(alloc: Global, secret: Secret, journal: J) -> Space<J>
        requires { J.turns journal ≡ [] }
        ensures { result ≡ record { start = None; turns = []; cap = J.cap journal } }
    {
        Space {
            tables: Tables::new(alloc, secret),
            journal,
            start: Log::new(),
            room: u64::MAX,
            changed: Vec::new(alloc),
            alloc,
        }
    }

    /// The space that starts from these rows, over a journal without turns.
    ///
    /// The rows are those of a sound and settled space that is not shut and has no requests, and its next id and the
    /// journal's turns together are at most 2^64. They are copied into the tables.
    /// Errors: only want of memory.
    /// Source: docs/SPACE.md, Opening again.
    pub fn start(
        alloc: Global,
        secret: Secret,
        start: Start,
        journal: J,
    ) -> Result<Space<J>, AllocError>
        requires empty { J.turns journal ≡ [] }
        requires starts { MayStart start (J.cap journal) }
        ensures { IfOk result (λ s.
            s ≡ record { start = Some start; turns = []; cap = J.cap journal }) }
    {
        let tables = Tables::start(alloc, secret, &start);
        let room = u64::MAX - (start.next - 1);
        let kept = Log::new().and(&start, &true);
        drop(start);
        Ok(Space {
            tables: tables?,
            journal,
            start: kept,
            room,
            changed: Vec::new(alloc),
            alloc,
        })
    }

    /// Makes one turn of the caller, at that reading of the clock in milliseconds, where the event isn't nothing.
    ///
    /// `Nothing` exactly where the event is nothing; it makes no turn.
    /// Errors: where it isn't nothing, `Full` where the journal holds as many turns as it may, and `Memory` where there was
    /// none. Both leave the space as it was; the event is dropped.
    /// Source: docs/SPACE.md, Phases and Nothing.
    pub fn turn(&mut self, caller: u64, at: u64, event: Event) -> Result<Turned, TurnError>
        ensures turns { TurnsTo caller at event self.old self.new result }
        ensures legal { IsLegal self.new }
    {
        let turns = self.journal.len();
        if is_nothing(&self.tables, caller, at, &event) {
            drop(event);
            return Ok(Turned::Nothing { turns });
        }
        if turns >= self.room {
            let refused = refusal(&mut self.journal, self.alloc, caller, at, &event);
            drop(event);
            return Err(error_of(refused, turns));
        }
        let made = make(
            &mut self.tables,
            &mut self.journal,
            self.alloc,
            caller,
            at,
            &event,
        );
        drop(event);
        match made {
            Ok((out, changed)) => {
                self.tables.commit();
                self.journal.commit();
                self.changed = changed;
                Ok(Turned::Done(out))
            }
            Err(refused) => {
                self.tables.forget();
                Err(error_of(refused, turns))
            }
        }
    }

    /// How many turns were made.
    pub fn turns(&self) -> u64
        ensures { result ≡ length self.now.turns }
    {
        self.journal.len()
    }

    /// How many tuples there are.
    pub fn tuples(&self) -> u64
        ensures { (s : Plain) → StartsAt self.now.start s →
            result ≡ length (plain_from s self.now.turns).tuples }
    {
        self.tables.tuples.len()
    }

    /// How many requests there are.
    pub fn requests(&self) -> u64
        ensures { (s : Plain) → StartsAt self.now.start s →
            result ≡ length (plain_from s self.now.turns).requests }
    {
        self.tables.requests.len()
    }

    /// The ids of what the last turn changed for those who wait: of each request that left the state parked, and of each
    /// notifier that closed or has more events in its queue. There may be others among them.
    ///
    /// Source: docs/SPACE.md, Changed.
    pub fn changed(&self) -> &[u64]
        ensures { NamesLast self.now.start self.now.turns result.now }
    {
        self.changed.as_slice()
    }

    /// The journal.
    pub fn history(&self) -> &J
        ensures turns { J.turns result.now ≡ self.now.turns }
        ensures cap { J.cap result.now ≡ self.now.cap }
    {
        &self.journal
    }
}

/// Makes the turn ahead of what stands, and prepares the journal for it. With the answer comes what the turn changed.
///
/// Errors: `Full` only where the journal holds as many turns as it may, and `Memory`; what stands is as it was.
fn make<J: Journal>(
    tables: &mut Tables,
    journal: &mut J,
    alloc: Global,
    caller: u64,
    at: u64,
    event: &Event,
) -> Result<(Out, Vec<u64>), JournalError>
    requires room { tables.old.ids.ahead.next < 2 ^ 64 }
    requires begun { Begun tables.old }
    ensures made { IfOk result (λ both.
        IsMade caller at event.now (J.turns journal.old) (J.cap journal.old) (J.ahead journal.new)
        tables.old tables.new both.0 both.1.items) }
    ensures full { IfErr result (λ e. e ≡ Full →
        length (J.turns journal.old) ≡ J.cap journal.old) }
    ensures turns { J.turns journal.new ≡ J.turns journal.old }
    ensures cap { J.cap journal.new ≡ J.cap journal.old }
    ensures list { KeepsList tables.old tables.new }
{
    tables.advance(at);
    let (out, picks) = step(tables, alloc, caller, event)?;
    let changed = match tables.changes(alloc) {
        Ok(changed) => changed,
        Err(_) => {
            drop(out);
            return Err(JournalError::Memory);
        }
    };
    match journal.prepare(caller, at, event, &out, &picks) {
        Ok(()) => Ok((out, changed)),
        Err(refused) => {
            drop(out);
            Err(refused)
        }
    }
}

/// Why a journal takes no more that has as many turns as it may, or as a u64 can count: it is full, or there was no
/// memory.
fn refusal<J: Journal>(
    journal: &mut J,
    alloc: Global,
    caller: u64,
    at: u64,
    event: &Event,
) -> JournalError
    requires last { length (J.turns journal.old) + 1 < 2 ^ 64 →
        J.cap journal.old ≤ length (J.turns journal.old) }
    ensures full { result ≡ Full → length (J.turns journal.old) ≡ J.cap journal.old }
    ensures turns { J.turns journal.new ≡ J.turns journal.old }
    ensures cap { J.cap journal.new ≡ J.cap journal.old }
{
    let out = Out::NotYet;
    let prepared = journal.prepare(caller, at, event, &out, &Picks::new(alloc));
    drop(out);
    match prepared {
        Err(refused) => refused,
        Ok(()) => {
            // Its number of turns is a u64, so no journal has 2^64.
            journal.commit();
            drop(journal.len());
            unreachable!()
        }
    }
}

fn error_of(refused: JournalError, turns: u64) -> TurnError
    ensures { result ≡ error_of_spec turns refused }
{
    match refused {
        JournalError::Full => TurnError::Full { turns },
        JournalError::Memory => TurnError::Memory,
    }
}
