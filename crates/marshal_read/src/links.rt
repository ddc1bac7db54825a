//! Links: copies of objects that are finished.

ghost use Rattle.std.specs.Prelude.{◌≡◌, ℕ, ◌≤◌, ◌<◌, IfOk};
ghost use Rattle.marshal_grammar.specs.declared.kind.Kind.TheVariants as kind;
ghost use Rattle.marshal_grammar.specs.Values.{link, too_deep, finished, object_at};
ghost use Rattle.marshal_read.specs.Gives.{GivesAs, Adds};
ghost use Rattle.marshal_read.specs.Making.{value_of, cut, Stands};
ghost use Rattle.marshal_read.specs.Links.{counted_copy};

use crate::error::Stop;
use crate::reader::Reader;
use marshal_grammar::kind::Kind;
use marshal_grammar::refusal::Why;
use std::alloc::Global;

impl<'a> Reader<'a> {
    /// After `@`: the number of a finished object, of which a copy stands here.
    pub fn link(&mut self, alloc: Global, room: usize, at: usize) -> Result<(), Stop>
        requires { room ≤ 128 }
        ensures { Adds (link room at) self.old self.new result }
    {
        let number = self.long()?;
        let range = self.finished(number, at)?;
        self.count_copy(alloc, room, at, range)?;
        Ok(self.repeat(alloc, range)?)
    }

    /// The steps of a finished object.
    fn finished(&mut self, number: i64, at: usize) -> Result<(usize, usize), Stop>
        ensures gives { GivesAs
            (finished at (object_at self.old.seen number)) (λ r. value_of (cut r self.new.steps))
            self.old self.new result }
        ensures stands { IfOk result (λ r. Stands self.new.steps r) }
    {
        match self.object(number) {
            None => Err(self.refuse(Why::ObjectLink, at)),
            Some(None) => Err(self.refuse(Why::Cyclic, at)),
            Some(Some(range)) => Ok(range),
        }
    }

    /// Counts the copy of what these steps make, which fits into the levels that are left.
    fn count_copy(
        &mut self,
        alloc: Global,
        room: usize,
        at: usize,
        range: (usize, usize),
    ) -> Result<(), Stop>
        requires room { room ≤ 128 }
        requires stands { Stands self.old.steps range }
        ensures { GivesAs
            (counted_copy room at (value_of (cut range self.old.steps)))
            (λ _. value_of (cut range self.old.steps))
            self.old self.new result }
    {
        let value = self.built(alloc, range)?;
        let depth = value.depth();
        let nodes = value.nodes();
        drop(value);
        if depth > room as u64 {
            return Err(self.refuse(Why::TooDeep, at));
        }
        self.count_nodes(at, nodes)
    }

    /// No level is left: every value is too deep, and a link once its object is known.
    pub fn too_deep(&mut self, alloc: Global, kind: Kind, at: usize) -> Result<(), Stop>
        ensures { Adds (too_deep kind at) self.old self.new result }
    {
        match kind {
            Kind::Link => self.link(alloc, 0, at),
            _ => Err(self.refuse(Why::TooDeep, at)),
        }
    }
}
