//! The life part: what is done with the life that a request says, or that a renewer answers.

ghost use Rattle.std.specs.Prelude.{false, ◌<◌, ◌≡◌};
ghost use Rattle.drb_value.specs.View.{layer};
ghost use Rattle.drb_script.specs.declared.patience.Patience.{Patience};
ghost use Rattle.drb_script.specs.declared.patience.Patience.TheVariants.{Never};
ghost use Rattle.drb_script.specs.Scripts.{life_at, life_from};
ghost use Rattle.drb_script.specs.Rest.{Leaves, may_wait, after_lease, leased as leased_spec, weight};

use crate::next::{AfterCall, AfterTurn, Leasing, Next, Saying};
use drb_back::Back;
use drb_dispatch::Lasting;
use drb_value::{Node, Value};
use rinda_rules::Event;
use rinda_tuple::{Lease, Life};

/// The life that the value of a renewer's answer says.
fn life_in(node: &Node) -> Life
    ensures { result ≡ life_at (layer node.now) }
{
    match node {
        Node::Nil => Life::Never,
        Node::Int(seconds) => Life::Seconds(*seconds),
        _ => Life::Gone,
    }
}

#[tactic(auto, using(crate::proofs::Outer::outer))]
fn life_said(value: &Value) -> Life
    ensures { result ≡ life_from (Back.Value value.now) }
{
    life_in(&value.node)
}

/// The life that a renewer answered.
pub fn life_of(back: &Back) -> Life
    ensures { result ≡ life_from back.now }
{
    let Back::Value(value) = back else {
        return Life::Gone;
    };
    life_said(value)
}

/// What is done with a lease.
pub fn leased(leasing: Leasing, lease: Lease) -> Next
    ensures leaves { (p : Patience) → Leaves p result (after_lease p leasing lease) }
    ensures patient { may_wait result ≡ false }
    ensures turn_next { weight result ≡ 0 }
{
    match leasing {
        Leasing::Write { value } => Next::Turn(Event::Write { value, lease }, AfterTurn::Made),
        Leasing::Ask {
            kind,
            pattern,
            port,
            block,
        } => Next::Turn(
            Event::Reserve {
                kind,
                pattern,
                lease,
            },
            AfterTurn::Reserved { port, block },
        ),
        Leasing::Notify { event, pattern } => Next::Turn(
            Event::Notify {
                event,
                pattern,
                lease,
            },
            AfterTurn::Made,
        ),
        Leasing::Renew { id } => Next::Turn(Event::Renew { id, lease }, AfterTurn::Changed { id }),
    }
}

/// The life part and what follows it.
pub fn with_life(life: Lasting, leasing: Leasing) -> Next
    ensures leaves { (p : Patience) → Leaves p result (leased_spec p life leasing) }
    ensures patient { may_wait result ≡ false }
    ensures no_reply { weight result < 2 }
{
    match life {
        Lasting::Known(life) => leased(
            leasing,
            Lease {
                life,
                renewer: None,
            },
        ),
        Lasting::Renewer(renewer) => Next::Call(renewer, Saying::Renew, AfterCall::Leased(leasing)),
    }
}
