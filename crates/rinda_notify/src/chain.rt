//! Events that a queue was given back.

ghost use Rattle.std.specs.Prelude.{◌≡◌, [], ◌∷◌, IfOk, option_copied};
ghost use Rattle.rinda_notify.specs.Notes.{first, rest, without_last};
ghost use Rattle.rinda_notify.specs.Chains.{events_of, is_none};

use drb_value::Value;
use std::alloc::{AllocError, Global};
use std::marker::Model;
use std::mem;

/// An event and what comes behind it.
#[derive(Drop)]
enum Link {
    End,
    More(Value, Box<Link>),
}

/// Events, the first one first, each with room of its own. Contracts see the list of them.
#[derive(Drop)]
pub(crate) struct Chain {
    link: Link,
}

impl Model for Chain {
    ghost use Rattle.std.specs.Prelude.{List};
    ghost use Rattle.drb_tree.specs.declared.Tree.{Tree};
    ghost use Rattle.drb_tree.specs.contracts.Tree as e;
    ghost use Rattle.std.specs.Coded.{codes};
    ghost use Rattle.rinda_notify.specs.Chains.{events_of};

    ghost Value = { List Tree };

    ghost coded = { Prim.hlevel (codes, e.the_row.coded) };

    ghost view = { λ c. events_of c.link };
}

/// A copy of an event with the room that a chain takes for it. Contracts see the event.
#[derive(Drop)]
pub(crate) struct Kept {
    event: Value,
    room: Box<Link>,
}

impl Model for Kept {
    ghost use Rattle.drb_tree.specs.declared.Tree.{Tree};
    ghost use Rattle.drb_tree.specs.contracts.Tree as e;
    ghost use Rattle.std.specs.Coded.{codes};

    ghost Value = { Tree };

    ghost coded = { Prim.hlevel (codes, e.the_row.coded) };

    ghost view = { λ k. k.event };
}

impl Kept {
    /// A copy of the event.
    ///
    /// Errors: only want of memory.
    pub(crate) fn of(alloc: Global, event: &Value) -> Result<Kept, AllocError>
        ensures { IfOk result (λ kept. kept ≡ event.now) }
    {
        let room = Box::new(alloc, Link::End)?;
        let event = event.copy(alloc)?;
        Ok(Kept { event, room })
    }
}

impl Chain {
    /// No event. Takes no memory.
    pub(crate) fn new() -> Chain
        ensures { result ≡ [] }
    {
        Chain { link: Link::End }
    }

    /// The first event; None exactly where there is none.
    pub(crate) fn first(&self) -> Option<&Value>
        ensures { option_copied result ≡ first self.now }
    {
        match &self.link {
            Link::End => None,
            Link::More(event, _) => Some(event),
        }
    }

    /// The event comes first. Takes no memory.
    pub(crate) fn put(&mut self, kept: Kept)
        ensures { self.new ≡ kept ∷ self.old }
    {
        let Kept { event, mut room } = kept;
        *room = mem::replace(&mut self.link, Link::End);
        self.link = Link::More(event, room);
    }

    /// Takes the first event off; None exactly where there is none.
    pub(crate) fn pop(&mut self) -> Option<Value>
        ensures first { result ≡ first self.old }
        ensures rest { self.new ≡ rest self.old }
    {
        match mem::replace(&mut self.link, Link::End) {
            Link::End => None,
            Link::More(event, behind) => {
                self.link = Box::into_inner(behind);
                Some(event)
            }
        }
    }

    /// Takes the last event off, if there is one.
    pub(crate) fn drop_last(&mut self)
        ensures { self.new ≡ without_last self.old }
    {
        let link = mem::replace(&mut self.link, Link::End);
        self.link = shortened(link);
    }
}

/// The link without its last event. Takes no memory.
fn shortened(link: Link) -> Link
    ensures { events_of result ≡ without_last (events_of link) }
{
    match link {
        Link::End => Link::End,
        Link::More(event, mut behind) => {
            if is_end(&behind) {
                drop(event);
                drop(behind);
                return Link::End;
            }
            *behind = shortened(mem::replace(&mut *behind, Link::End));
            Link::More(event, behind)
        }
    }
}

/// No event is there.
fn is_end(link: &Link) -> bool
    ensures { result ≡ is_none (events_of link.now) }
{
    match link {
        Link::End => true,
        Link::More(_, _) => false,
    }
}
