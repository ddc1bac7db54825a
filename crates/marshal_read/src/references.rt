//! What a `u` holds: a remote object, or the class and the bytes of anything else.

ghost use Rattle.std.specs.Prelude.{◌≡◌, ℕ, ◌+◌, ◌/◌, ◌≤◌, [], ◌∷◌, ◌++◌, length, drop, IfOk, OnOk};
ghost use Rattle.drb_tree.specs.declared.Tree.TheViews.{out-Tree};
ghost use Rattle.marshal_grammar.specs.Dumps.{version};
ghost use Rattle.marshal_grammar.specs.Trees.{remote_of, remote_from, id_of};
ghost use Rattle.marshal_grammar.specs.Values.{whole, held_value, held_nodes};
ghost use Rattle.drb_value.specs.View.{layer};
ghost use Rattle.marshal_read.specs.Gives.{Gives, Reached};
ghost use Rattle.marshal_read.specs.Making.{made, value_of, MakesOne, HoldsFields};
ghost use Rattle.marshal_read.specs.Scopes.{held_is, held_steps, Foreign};

use crate::counts::heavy;
use crate::error::Stop;
use crate::reader::Reader;
use crate::span::Span;
use crate::steps::{Raw, Step};
use drb_tree::{RefId, Remote};
use drb_value::{Node, Value};
use marshal_grammar::refusal::Why;
use sqlite_items::Boxed;
use std::alloc::{AllocError, Global};

/// What a `u` holds.
#[derive(Drop)]
pub enum Held<'a> {
    Remote(Remote),
    /// The class and the bytes.
    Other(Span<'a>, Span<'a>),
}

impl<'a> Reader<'a> {
    /// The byte `04` and a byte `00` to `08`.
    pub fn version(&mut self) -> Result<(), Stop>
        ensures { Gives version self.old self.new result }
    {
        if self.byte()? != 4 {
            return Err(self.refuse(Why::Version, 0));
        }
        if self.byte()? > 8 {
            return Err(self.refuse(Why::Version, 1));
        }
        Ok(())
    }

    /// The value of what a `u` held. Its variables, `n` fields, are what the steps from `start` on make. A remote object
    /// drops them.
    pub fn held_value(
        &mut self,
        alloc: Global,
        held: Held<'a>,
        start: usize,
        n: usize,
    ) -> Result<(), AllocError>
        requires start { start ≤ length self.old.steps }
        requires foreign { Foreign held }
        requires fields { HoldsFields (drop start self.old.steps) n }
        ensures ok { OnOk result (Reached
            (whole (held_value (held_is held.entry) (made (drop start self.old.steps)).fields))
            (value_of (drop start self.old.steps ++ held_steps held.entry n))
            self.old self.new) }
        ensures steps { OnOk result (self.new.steps ≡ self.old.steps ++ held_steps held.entry n) }
    {
        match held {
            Held::Remote(remote) => {
                let remote = Boxed::new(alloc, remote)?;
                self.push(Step::Forget(n))?;
                self.whole(Step::Remote(remote))
            }
            Held::Other(class, bytes) => {
                let raw = Boxed::new(alloc, Raw { class, bytes })?;
                self.whole_from(start, Step::Dumped(raw, n))
            }
        }
    }
}

impl<'a> Reader<'a> {
    /// The remote object that the value stands for that the steps make.
    pub fn remote(&self, alloc: Global) -> Result<Option<Remote>, AllocError>
        requires { MakesOne self.now.steps }
        ensures { IfOk result (λ r. r ≡ remote_of (out-Tree (value_of self.now.steps))) }
    {
        let value = self.built_since(alloc, 0)?;
        let found = remote_of(alloc, &value.node);
        drop(value);
        found
    }
}

/// What it counts at its place.
pub fn held_nodes(held: &Held) -> u64
    ensures { result ≡ held_nodes (held_is held.now) }
{
    match held {
        Held::Remote(remote) => {
            let uri = remote.uri.bytes.len() as u128;
            let id = match &remote.id {
                RefId::Text(text) => text.bytes.len() as u128,
                _ => 0,
            };
            1 + ((uri + id) / 256) as u64
        }
        Held::Other(_, bytes) => heavy(bytes.as_slice()),
    }
}

/// The remote object that a list of two stands for, a text and a nil, integer or text.
fn remote_of(alloc: Global, node: &Node) -> Result<Option<Remote>, AllocError>
    ensures { IfOk result (λ r. r ≡ remote_of (layer node.now)) }
{
    let Node::List(items) = node else {
        return Ok(None);
    };
    match items.as_slice() {
        [uri, id] => remote_from(alloc, uri, id),
        _ => Ok(None),
    }
}

fn remote_from(alloc: Global, uri: &Value, id: &Value) -> Result<Option<Remote>, AllocError>
    ensures { IfOk result (λ r. r ≡ remote_from (out-Tree uri.now) (out-Tree id.now)) }
{
    remote_from_nodes(alloc, &uri.node, &id.node)
}

fn remote_from_nodes(alloc: Global, uri: &Node, id: &Node) -> Result<Option<Remote>, AllocError>
    ensures { IfOk result (λ r. r ≡ remote_from (layer uri.now) (layer id.now)) }
{
    let Node::Text(uri) = uri else {
        return Ok(None);
    };
    match id_of(alloc, id)? {
        None => Ok(None),
        Some(id) => Ok(Some(Remote {
            uri: uri.copy(alloc)?,
            id,
        })),
    }
}

/// The id that a value stands for: a nil, an integer or a text.
fn id_of(alloc: Global, node: &Node) -> Result<Option<RefId>, AllocError>
    ensures { IfOk result (λ r. r ≡ id_of (layer node.now)) }
{
    match node {
        Node::Nil => Ok(Some(RefId::Front)),
        Node::Int(number) => Ok(Some(RefId::Number(*number))),
        Node::Text(text) => Ok(Some(RefId::Text(text.copy(alloc)?))),
        _ => Ok(None),
    }
}
