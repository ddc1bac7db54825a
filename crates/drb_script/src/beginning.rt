//! What a call wants done first.

ghost use Rattle.std.specs.Prelude.{[], false, ◌<◌, ◌≡◌};
ghost use Rattle.drb_script.specs.declared.patience.Patience.{Patience};
ghost use Rattle.drb_script.specs.declared.patience.Patience.TheVariants.{Never};
ghost use Rattle.drb_script.specs.Scripts.{script};
ghost use Rattle.drb_script.specs.Rest.{Leaves, may_wait, weight};
ghost use Rattle.drb_script.specs.Stands.{Stands};

use crate::each::{pop, round};
use crate::leased::with_life;
use crate::next::{AfterTurn, Leasing, Next};
use crate::patience::Patience;
use drb_dispatch::Call;
use rinda_rules::Event;

/// What a call wants done first: a turn, or the call of a renewer.
///
/// The machine stands where the script of the call begins. Under `Patience::Never` no turn that it wants finds nothing to
/// do. Takes no memory.
/// Source: docs/SESSIONS.md, Scripts.
pub fn begin(patience: Patience, call: Call) -> Next
    ensures stands { Stands patience call [] result }
    ensures patient { patience ≡ Never → may_wait result ≡ false }
    ensures no_reply { weight result < 2 }
{
    first(patience, call)
}

fn first(patience: Patience, call: Call) -> Next
    ensures leaves { Leaves patience result (script patience call) }
    ensures patient { patience ≡ Never → may_wait result ≡ false }
    ensures no_reply { weight result < 2 }
{
    match call {
        Call::Write { value, life } => with_life(life, Leasing::Write { value }),
        Call::Ask {
            kind,
            pattern,
            port,
            life,
            block,
        } => with_life(
            life,
            Leasing::Ask {
                kind,
                pattern,
                port,
                block,
            },
        ),
        Call::ReadAll { pattern } => Next::Turn(Event::ReadAll { pattern }, AfterTurn::Listed),
        Call::Notify {
            event,
            pattern,
            life,
        } => with_life(life, Leasing::Notify { event, pattern }),
        Call::Cancel { id } => Next::Turn(Event::Cancel { id }, AfterTurn::Changed { id }),
        Call::Renew { id, life } => with_life(life, Leasing::Renew { id }),
        Call::Look { id, flag } => Next::Turn(Event::Look { id }, AfterTurn::Looked { id, flag }),
        Call::Value { id } => Next::Turn(Event::Value { id }, AfterTurn::Valued { id }),
        Call::Pop { id } => pop(patience, id),
        Call::Each { id, block: None } => Next::Turn(
            Event::Withdraw { id },
            AfterTurn::Unheard { id },
        ),
        Call::Each {
            id,
            block: Some(block),
        } => round(patience, id, block, true),
    }
}
