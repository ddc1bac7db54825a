ghost use Rattle.std.specs.Prelude.{◌≡◌, IfOk};
ghost use Rattle.rinda_tuple.specs.Lives.{deadline as deadline_spec, life_at, life_of as life_of_spec};
ghost use Rattle.drb_value.specs.View.{layer};

use drb_tree::Remote;
use drb_value::{Node, Value};
use std::alloc::{AllocError, Global};

/// How long an object of the space stays.
///
/// Source: Ruby's tuplespace.rb, TupleEntry#make_expires; docs/SPACE.md, Lives.
#[derive(Clone, Copy, Debug, PartialEq, Eq)]
pub enum Life {
    /// Until somebody takes or cancels it.
    Never,
    /// It is over at once.
    Gone,
    /// So many seconds from now on. Over at once where that is not more than 0.
    Seconds(i128),
}

/// How long an object stays, and who is asked for more once that is over.
#[derive(Drop)]
pub struct Lease {
    pub life: Life,
    pub renewer: Option<Remote>,
}

impl Lease {
    /// An equal lease.
    ///
    /// Errors: only want of memory.
    pub fn copy(&self, alloc: Global) -> Result<Lease, AllocError>
        ensures { IfOk result (λ lease. lease ≡ self.now) }
    {
        let renewer = copy_renewer(alloc, &self.renewer)?;
        Ok(Lease {
            life: self.life,
            renewer,
        })
    }
}

/// An equal renewer, or nobody.
///
/// Errors: only want of memory.
pub fn copy_renewer(alloc: Global, renewer: &Option<Remote>) -> Result<Option<Remote>, AllocError>
    ensures { IfOk result (λ copied. copied ≡ renewer.now) }
{
    match renewer {
        None => Ok(None),
        Some(renewer) => Ok(Some(renewer.copy(alloc)?)),
    }
}

/// What the life argument of a request says.
#[derive(Clone, Copy, Debug, PartialEq, Eq)]
pub enum LifeArg {
    /// The life itself.
    Known(Life),
    /// A remote object, which has to be asked for the life.
    Renewer,
}

/// The last time that a deadline can name, in milliseconds.
const LAST_DEADLINE: u64 = 0x7fff_ffff_ffff_ffff;

/// When a life that begins at `now` is over. Both are in milliseconds; `None` is no deadline.
///
/// Source: Ruby's tuplespace.rb, TupleEntry#make_expires; docs/SPACE.md, Lives.
pub fn deadline(life: &Life, now: u64) -> Option<u64>
    ensures { result ≡ deadline_spec life.now now }
{
    match life {
        Life::Never => None,
        Life::Gone => Some(0),
        Life::Seconds(s) => after_seconds(*s, now),
    }
}

/// So many seconds after `now`, or no deadline where that passes the last one.
fn after_seconds(s: i128, now: u64) -> Option<u64>
    ensures { result ≡ deadline_spec (Life.Seconds s) now }
{
    if s <= 0 {
        return Some(now);
    }
    let later = s
        .unsigned_abs()
        .checked_mul(1000)?
        .checked_add(now as u128)?;
    if later > LAST_DEADLINE as u128 {
        return None;
    }
    Some(later as u64)
}

/// What the life argument of a request says. An argument that is left out is nil here.
///
/// Source: Ruby's tuplespace.rb, TupleEntry#get_renewer; docs/SPACE.md, Lives.
#[tactic(auto, using(crate::proofs::Outer::outer))]
pub fn life_of(v: &Value) -> LifeArg
    ensures { result ≡ life_of_spec v.now }
{
    life_in(&v.node)
}

fn life_in(node: &Node) -> LifeArg
    ensures { result ≡ life_at (layer node.now) }
{
    match node {
        Node::Nil => LifeArg::Known(Life::Never),
        Node::Int(s) => LifeArg::Known(Life::Seconds(*s)),
        Node::Remote(_) => LifeArg::Renewer,
        _ => LifeArg::Known(Life::Gone),
    }
}
