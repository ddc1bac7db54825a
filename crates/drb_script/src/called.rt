//! What a script wants done after an outgoing call.

ghost use Rattle.std.specs.Prelude.{Some, false, ◌≡◌};
ghost use Rattle.drb_script.specs.declared.patience.Patience.{Patience};
ghost use Rattle.drb_script.specs.declared.patience.Patience.TheVariants.{Never};
ghost use Rattle.drb_script.specs.Scripts.{pushed as pushed_spec, life_from, lease};
ghost use Rattle.drb_script.specs.Rest.{Leaves, may_wait, after_back, after_call, after_told, after_lease, is_memory as is_memory_spec, weight};
ghost use Rattle.drb_script.specs.Stands.{CalledTo};

use crate::each::{ending, is_value};
use crate::leased::{leased, life_of};
use crate::next::{AfterCall, AfterTurn, Leasing, Next};
use crate::patience::Patience;
use crate::turned::submit;
use drb_back::Back;
use drb_tree::Remote;
use rinda_rules::Event;
use rinda_tuple::Lease;

/// The renewer has answered.
fn renewed(leasing: Leasing, renewer: Remote, back: Back) -> Next
    ensures leaves { (p : Patience) → Leaves p result
        (after_lease p leasing (lease (life_from back) (Some renewer))) }
    ensures patient { may_wait result ≡ false }
    ensures turn_next { weight result ≡ 0 }
{
    let life = life_of(&back);
    drop(back);
    leased(
        leasing,
        Lease {
            life,
            renewer: Some(renewer),
        },
    )
}

/// The block was told of the request.
fn told(id: u64, port: Option<Remote>, block: Remote, back: Back) -> Next
    ensures leaves { (p : Patience) → Leaves p result (after_told p id port block back) }
    ensures patient { may_wait result ≡ false }
    ensures turn_next { weight result ≡ 0 }
{
    if is_value(&back) {
        drop(block);
        drop(back);
        submit(id, port)
    } else {
        drop(port);
        Next::Turn(
            Event::Withdraw { id },
            AfterTurn::Untold { id, block, back },
        )
    }
}

/// The tuple was pushed.
fn pushed(id: u64, port: Remote, back: Back) -> Next
    ensures leaves { (p : Patience) → Leaves p result (pushed_spec id port back) }
    ensures patient { may_wait result ≡ false }
    ensures turn_next { weight result ≡ 0 }
{
    if is_value(&back) {
        drop(port);
        drop(back);
        Next::Turn(Event::Settle { id, ok: true }, AfterTurn::Settled)
    } else {
        Next::Turn(
            Event::Settle { id, ok: false },
            AfterTurn::Unsettled { id, port, back },
        )
    }
}

fn given(patience: Patience, id: u64, block: Remote, back: Back) -> Next
    ensures leaves { Leaves patience result (after_call patience (AfterCall.Given id) block back) }
    ensures patient { patience ≡ Never → may_wait result ≡ false }
    ensures turn_next { weight result ≡ 0 }
{
    let more = is_value(&back);
    drop(back);
    ending(patience, id, block, more)
}

fn closed(patience: Patience, id: u64, block: Remote, back: Back) -> Next
    ensures leaves { Leaves patience result (after_call patience (AfterCall.Closed id) block back) }
    ensures patient { patience ≡ Never → may_wait result ≡ false }
    ensures turn_next { weight result ≡ 0 }
{
    drop(back);
    ending(patience, id, block, false)
}

fn is_memory(back: &Back) -> bool
    ensures { result ≡ is_memory_spec back.now }
{
    matches!(back, Back::Memory)
}

impl AfterCall {
    /// What a script wants done after its call of that peer came to this: a turn, or nothing for want of memory.
    ///
    /// Where the machine stood where the script does, it does so again. Under `Patience::Never` the turn never finds
    /// nothing to do. Takes no memory.
    /// Source: docs/SESSIONS.md, Scripts.
    pub fn called(self, patience: Patience, to: Remote, back: Back) -> Next
        ensures stands { CalledTo patience self to back result }
        ensures patient { patience ≡ Never → may_wait result ≡ false }
        ensures turn_next { weight result ≡ 0 }
    {
        self.called_to(patience, to, back)
    }

    fn called_to(self, patience: Patience, to: Remote, back: Back) -> Next
        ensures leaves { Leaves patience result (after_back patience self to back) }
        ensures patient { patience ≡ Never → may_wait result ≡ false }
        ensures turn_next { weight result ≡ 0 }
    {
        if is_memory(&back) {
            let loose = self.loose();
            drop(self);
            drop(to);
            drop(back);
            Next::Lost(loose)
        } else {
            self.called_well(patience, to, back)
        }
    }

    fn called_well(self, patience: Patience, to: Remote, back: Back) -> Next
        ensures leaves { Leaves patience result (after_call patience self to back) }
        ensures patient { patience ≡ Never → may_wait result ≡ false }
        ensures turn_next { weight result ≡ 0 }
    {
        match self {
            AfterCall::Leased(leasing) => renewed(leasing, to, back),
            AfterCall::Told { id, port } => told(id, port, to, back),
            AfterCall::Pushed { id } => pushed(id, to, back),
            AfterCall::Given { id } => given(patience, id, to, back),
            AfterCall::Closed { id } => closed(patience, id, to, back),
        }
    }
}
