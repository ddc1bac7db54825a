//! The life that a renewer's answer says.

ghost use Rattle.std.specs.Prelude.{◌≡◌};
ghost use Rattle.drb_value.specs.View.{layer};
ghost use Rattle.drb_script.specs.Scripts.{life_at, life_from};
ghost use Rattle.drb_keeper.specs.Keeping.{life_told};

use drb_back::Back;
use drb_value::{Node, Value};
use rinda_tuple::Life;

/// The life that the value of a renewer's answer says.
fn life_in(node: &Node) -> Life
    ensures { result ≡ life_at (layer node.now) }
{
    match node {
        Node::Nil => Life::Never,
        Node::Int(seconds) => Life::Seconds(*seconds),
        _ => Life::Gone,
    }
}

#[tactic(auto, using(crate::proofs::Outer::outer))]
fn life_said(value: &Value) -> Life
    ensures { result ≡ life_from (Back.Value value.now) }
{
    life_in(&value.node)
}

/// The life that a renewer answered. None for want of memory, which says nothing of the object.
pub fn life_of(back: &Back) -> Option<Life>
    ensures { result ≡ life_told back.now }
{
    match back {
        Back::Value(value) => Some(life_said(value)),
        Back::Memory => None,
        _ => Some(Life::Gone),
    }
}
