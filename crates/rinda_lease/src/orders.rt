ghost use Rattle.std.specs.Prelude.{◌≡◌, ℕ, ◌+◌, ◌≤◌, true, false, OnOk, OnErr};
ghost use Rattle.rinda_lease.specs.declared.stage.Stage.TheVariants.{Still};
ghost use Rattle.rinda_lease.specs.declared.stage.Stage.{Stage};
ghost use Rattle.rinda_lease.specs.Orders.{AreOrders, AreRising, HasRoom, placed, is_still};

use crate::keys::{key_of, put_in, take_out};
use crate::stage::Stage;
use std::alloc::AllocError;
use std::collections::VecDeque;

/// The slots of those that are doubted.
const WAITING: u64 = 0;

const ASKED: u64 = 1;

/// The ids in their orders, as keys: a slot and, in it, the id.
#[derive(Drop)]
pub(crate) struct Orders {
    /// Those with a deadline, by it.
    pub(crate) timed: VecDeque<u128>,
    /// First those that wait to be asked, then those that are asked.
    pub(crate) doubted: VecDeque<u128>,
}

/// Makes room in both orders for one id more.
pub(crate) fn make_room(orders: &mut Orders) -> Result<(), AllocError>
    ensures timed { orders.new.timed.items ≡ orders.old.timed.items }
    ensures doubted { orders.new.doubted.items ≡ orders.old.doubted.items }
    ensures wider { HasRoom 0 orders.old → HasRoom 0 orders.new }
    ensures room { OnOk result (HasRoom 1 orders.new) }
{
    let (timed, doubted) = (orders.timed.len(), orders.doubted.len());
    orders.timed.reserve(doubted + 1)?;
    orders.doubted.reserve(timed + 1)
}

/// The id, which has that stage, is still.
pub(crate) fn leave(orders: &mut Orders, id: u64, stage: Stage)
    requires { AreRising orders.old }
    ensures orders { (stages : ℕ → Stage) → AreOrders stages orders.old → stages id ≡ stage
        → AreOrders (placed id Still stages) orders.new }
    ensures room { (more : ℕ) → HasRoom more orders.old → HasRoom more orders.new }
    ensures freed { (stages : ℕ → Stage) → AreOrders stages orders.old → stages id ≡ stage
        → is_still stage ≡ false → HasRoom 0 orders.old → HasRoom 1 orders.new }
{
    match stage {
        Stage::Still => {}
        Stage::Timed(deadline) => take_out(&mut orders.timed, key_of(deadline, id)),
        Stage::Waiting => take_out(&mut orders.doubted, key_of(WAITING, id)),
        Stage::Asked => take_out(&mut orders.doubted, key_of(ASKED, id)),
    }
}

/// The id, which is still, has that stage. Takes no memory.
pub(crate) fn enter(orders: &mut Orders, id: u64, stage: Stage)
    requires rise { AreRising orders.old }
    requires room { HasRoom 1 orders.old }
    ensures orders { (stages : ℕ → Stage) → AreOrders stages orders.old → stages id ≡ Still
        → AreOrders (placed id stage stages) orders.new }
    ensures room { HasRoom 0 orders.new }
{
    match stage {
        Stage::Still => {}
        Stage::Timed(deadline) => put_in(&mut orders.timed, key_of(deadline, id)),
        Stage::Waiting => put_in(&mut orders.doubted, key_of(WAITING, id)),
        Stage::Asked => put_in(&mut orders.doubted, key_of(ASKED, id)),
    }
}
