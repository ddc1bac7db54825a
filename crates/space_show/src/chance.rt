//! Events by chance, from a seed: few names, small numbers, short times.

use crate::words::Fault;
use drb_tree::{Code, RefId, Remote, Text};
use drb_value::{Name, NameError, Value};
use rand_core::utils::NextWord;
use rand_pcg::Pcg32;
use rinda_rules::{Event, Kind, ObjectKind};
use rinda_tuple::{Lease, Life, Template, Tuple};
use sqlite_items::Items;
use std::alloc::Global;

// How many ids are remembered, of those that were given out last.
const REMEMBERED: usize = 12;

/// An id that was given out, to whom, and for what.
#[derive(Clone, Copy)]
struct Given {
    id: u64,
    caller: u64,
    kind: ObjectKind,
}

/// Where the events come from.
#[derive(Drop)]
pub struct Chance {
    alloc: Global,
    words: Pcg32,
    clock: u64,
    given: Vec<Given>,
    asked: u64,
}

impl Chance {
    pub fn new(alloc: Global, seed: u64) -> Chance {
        Chance {
            alloc,
            words: Pcg32::new(seed, 54),
            clock: 1_000,
            given: Vec::new(alloc),
            asked: 0,
        }
    }

    /// A number below the limit.
    fn below(&mut self, limit: u32) -> u32 {
        let word: u32 = self.words.next_word();
        word % limit.max(1)
    }

    fn one_in(&mut self, many: u32) -> bool {
        self.below(many) == 0
    }

    /// One of the callers 1 to 3.
    pub fn caller(&mut self) -> u64 {
        u64::from(self.below(3)) + 1
    }

    /// A reading of the clock, which goes back now and then.
    pub fn reading(&mut self) -> u64 {
        self.clock = self.clock.saturating_add(u64::from(self.below(300)));
        if self.one_in(10) {
            self.clock.saturating_sub(u64::from(self.below(1_000)))
        } else {
            self.clock
        }
    }

    /// The id was given out to that caller, for an object of that kind.
    pub fn gave(&mut self, id: u64, caller: u64, kind: ObjectKind) -> Result<(), Fault> {
        if self.given.len() >= REMEMBERED {
            self.given.remove(0);
        }
        self.given.push(Given { id, caller, kind })?;
        Ok(())
    }

    /// The renewer of that id has to be asked.
    pub fn asks(&mut self, id: u64) {
        self.asked = id;
    }

    /// One of the ids that were given out last, and mostly its caller; now and then one of the first.
    fn some_id(&mut self) -> Given {
        let caller = self.caller();
        let at = self.below(REMEMBERED as u32) as usize;
        let given = self.given.get(at).copied().unwrap_or(Given {
            id: 0,
            caller,
            kind: ObjectKind::Entry,
        });
        if self.one_in(40) {
            Given {
                id: u64::from(self.below(6)),
                ..given
            }
        } else if self.one_in(10) {
            Given { caller, ..given }
        } else {
            given
        }
    }

    /// The caller of an event, and the event. With `shut` it may be a Shut.
    pub fn event(&mut self, shut: bool) -> Result<(u64, Event), Fault> {
        if shut && self.one_in(20) {
            return Ok((1, Event::Shut));
        }
        match self.below(100) {
            0..=11 => self.write(),
            12..=31 => self.reserve(),
            32..=34 => self.read_all(),
            35..=38 => self.notify(),
            39..=42 => self.renew(),
            43..=46 => Ok((1, Event::NextAsk)),
            47..=49 => Ok((1, self.answered())),
            50..=51 => Ok((1, Event::Tick)),
            _ => Ok(self.of_id()),
        }
    }

    /// What has an id and little more, mostly such as suits what has it.
    fn of_id(&mut self) -> (u64, Event) {
        let Given { id, caller, kind } = self.some_id();
        let kind = match self.below(30) {
            0 => ObjectKind::Entry,
            1 => ObjectKind::Request,
            2 => ObjectKind::Notifier,
            _ => kind,
        };
        let event = match kind {
            ObjectKind::Entry => self.of_tuple(id),
            ObjectKind::Request => self.of_request(id),
            ObjectKind::Notifier => self.of_notifier(id),
        };
        (caller, event)
    }

    fn of_tuple(&mut self, id: u64) -> Event {
        match self.below(5) {
            0..=1 => Event::Value { id },
            2 => Event::Cancel { id },
            _ => Event::Look { id },
        }
    }

    fn of_request(&mut self, id: u64) -> Event {
        match self.below(20) {
            0..=8 => Event::Submit { id },
            9..=12 => Event::Collect { id },
            13..=14 => Event::Settle {
                id,
                ok: self.one_in(2),
            },
            15..=16 => Event::Withdraw { id },
            17..=18 => Event::Cancel { id },
            _ => Event::Look { id },
        }
    }

    fn of_notifier(&mut self, id: u64) -> Event {
        match self.below(20) {
            0..=15 => Event::Pop { id },
            16..=17 => Event::Withdraw { id },
            18 => Event::Cancel { id },
            _ => Event::Look { id },
        }
    }

    fn write(&mut self) -> Result<(u64, Event), Fault> {
        let caller = self.caller();
        let lease = self.lease()?;
        let number = self.below(4);
        let value = Tuple::List(self.pair(Some(number))?);
        Ok((caller, Event::Write { value, lease }))
    }

    fn reserve(&mut self) -> Result<(u64, Event), Fault> {
        let caller = self.caller();
        let kind = match self.below(3) {
            0 => Kind::Read,
            1 => Kind::Take,
            _ => Kind::Move,
        };
        let lease = self.lease()?;
        let pattern = self.pattern()?;
        Ok((
            caller,
            Event::Reserve {
                kind,
                pattern,
                lease,
            },
        ))
    }

    fn read_all(&mut self) -> Result<(u64, Event), Fault> {
        let pattern = self.pattern()?;
        Ok((1, Event::ReadAll { pattern }))
    }

    fn notify(&mut self) -> Result<(u64, Event), Fault> {
        let caller = self.caller();
        let lease = self.lease()?;
        let pattern = self.pattern()?;
        let event = self.heard()?;
        Ok((
            caller,
            Event::Notify {
                event,
                pattern,
                lease,
            },
        ))
    }

    fn renew(&mut self) -> Result<(u64, Event), Fault> {
        let Given {
            id,
            caller,
            kind: _,
        } = self.some_id();
        let lease = self.lease()?;
        Ok((caller, Event::Renew { id, lease }))
    }

    /// What a renewer answers, mostly the one that was asked last.
    fn answered(&mut self) -> Event {
        let life = self.life();
        let given = self.some_id();
        let id = if self.one_in(4) { given.id } else { self.asked };
        Event::Asked { id, life }
    }

    fn life(&mut self) -> Life {
        match self.below(12) {
            0..=2 => Life::Never,
            3 => Life::Gone,
            _ => Life::Seconds(i128::from(self.below(6))),
        }
    }

    fn lease(&mut self) -> Result<Lease, Fault> {
        let life = self.life();
        let renewer = if self.one_in(3) {
            Some(renewer(self.alloc)?)
        } else {
            None
        };
        Ok(Lease { life, renewer })
    }

    fn pattern(&mut self) -> Result<Template, Fault> {
        let number = if self.one_in(2) {
            Some(self.below(4))
        } else {
            None
        };
        Ok(Template::List(self.pair(number)?))
    }

    /// One of the names `a` and `b`, and then the number, or nil.
    fn pair(&mut self, number: Option<u32>) -> Result<Items<Value>, Fault> {
        let name: &[u8] = if self.one_in(2) { b"a" } else { b"b" };
        let mut items = Items::new(self.alloc);
        items.push(symbol(self.alloc, name)?)?;
        items.push(number_or_nil(number))?;
        Ok(items)
    }

    /// What a notifier is to hear: all, or what has one name.
    fn heard(&mut self) -> Result<Value, Fault> {
        let name: &[u8] = match self.below(5) {
            0 => b"write",
            1 => b"take",
            2 => b"delete",
            _ => return Ok(Value::nil()),
        };
        Ok(Value::text(Text::of(self.alloc, name, Code::Utf8)?))
    }
}

fn number_or_nil(number: Option<u32>) -> Value {
    match number {
        Some(number) => Value::int(i128::from(number)),
        None => Value::nil(),
    }
}

fn symbol(alloc: Global, name: &[u8]) -> Result<Value, Fault> {
    match Name::of(alloc, name) {
        Ok(name) => Ok(Value::sym(name)),
        Err(NameError::NotUtf8) => Err(Fault::NotALine),
        Err(NameError::Memory) => Err(Fault::Memory),
    }
}

fn renewer(alloc: Global) -> Result<Remote, Fault> {
    let uri = Text::of(alloc, b"druby://a:1", Code::Utf8)?;
    Ok(Remote {
        uri,
        id: RefId::Number(1),
    })
}
