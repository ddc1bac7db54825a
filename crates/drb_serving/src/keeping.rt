//! The keeper's thread.

ghost use Rattle.std.specs.Prelude.{◌≡◌};
ghost use Rattle.drb_shared.specs.Sharing.{IsReady};
ghost use Rattle.drb_serving.specs.Serving.{NotFewer};

use drb_keeper::{Keeper, KeeperEnd};
use drb_monitor::{Monitor, Pass};
use drb_outside::{Clock, Dialer};
use drb_packet::Limits;
use drb_shared::Shared;
use rinda_rules::Journal;
use rinda_space::Space;
use std::alloc::Global;
use std::sync::Wait;
use std::sync::atomic::{AtomicU64, Ordering};
use std::time::Duration;

/// How long the keeper pauses where there is nothing to do, in milliseconds.
const PAUSE: u64 = 10;

/// A keeper, with what it keeps a space by.
#[derive(Drop)]
pub(crate) struct Keeping<C: Clock + Drop, D: Dialer + Drop> {
    pub keeper: Keeper,
    pub clock: C,
    pub dialer: D,
    /// From which reading on the space is to be shut, as long as it isn't.
    pub shut_at: Option<u64>,
}

/// Keeps the space, step by step, until it is told to stop.
#[tactic(auto, using(crate::proofs::Readings::not_fewer_on))]
pub(crate) fn keep_on<C: Clock + Drop, D: Dialer + Drop, J: Journal, R: Wait>(
    rt: &R,
    alloc: Global,
    monitor: &Monitor<Space<J>>,
    limits: &Limits,
    shut_after: Option<u64>,
    mut pass: Pass<Space<J>>,
    clock: C,
    dialer: D,
    stop: &AtomicU64,
) -> (Pass<Space<J>>, Keeping<C, D>)
    requires { IsReady monitor.now pass }
    ensures pass { IsReady monitor.now result.0 }
    ensures clock { NotFewer (C.readings clock) (C.readings result.1.clock) }
{
    let mut keeping = begin(clock, dialer, shut_after);
    for _ in rt.forever() {
        if stop.load(Ordering::SeqCst) > 0 {
            break;
        }
        if !advance(rt, alloc, monitor, limits, &mut pass, &mut keeping) {
            stop.park_timeout(rt, 0, Duration::from_millis(PAUSE));
        }
    }
    (pass, keeping)
}

/// A keeper that owes nothing. Its clock is read once where the space is to be shut.
#[tactic(auto, using(crate::proofs::Readings::not_fewer_same, crate::proofs::Readings::not_fewer_read))]
fn begin<C: Clock + Drop, D: Dialer + Drop>(
    mut clock: C,
    dialer: D,
    shut_after: Option<u64>,
) -> Keeping<C, D>
    ensures { NotFewer (C.readings clock) (C.readings result.clock) }
{
    let shut_at = match shut_after {
        Some(after) => clock.now().checked_add(after),
        None => None,
    };
    Keeping {
        keeper: Keeper::new(),
        clock,
        dialer,
        shut_at,
    }
}

/// Whether the space is to be shut by now. The clock is read where it may be.
#[tactic(auto, using(crate::proofs::Readings::not_fewer_same, crate::proofs::Readings::not_fewer_read))]
fn is_late<C: Clock>(clock: &mut C, shut_at: Option<u64>) -> bool
    ensures { NotFewer (C.readings clock.old) (C.readings clock.new) }
{
    match shut_at {
        Some(time) => time <= clock.now(),
        None => false,
    }
}

/// One step; whether there may be more to do at once.
#[tactic(auto, using(crate::proofs::Readings::not_fewer_on))]
fn advance<C: Clock + Drop, D: Dialer + Drop, J: Journal, R: Wait>(
    rt: &R,
    alloc: Global,
    monitor: &Monitor<Space<J>>,
    limits: &Limits,
    pass: &mut Pass<Space<J>>,
    keeping: &mut Keeping<C, D>,
) -> bool
    requires { IsReady monitor.now pass.old }
    ensures pass { IsReady monitor.now pass.new }
    ensures clock { NotFewer (C.readings keeping.old.clock) (C.readings keeping.new.clock) }
{
    let shuts = is_late(&mut keeping.clock, keeping.shut_at) && !keeping.keeper.owes();
    let end = step(rt, alloc, monitor, limits, pass, keeping, shuts);
    if shuts && is_tried(end) {
        keeping.shut_at = None;
    }
    matches!(end, KeeperEnd::Asked(_))
}

/// One step of the keeper.
fn step<C: Clock + Drop, D: Dialer + Drop, J: Journal, R: Wait>(
    rt: &R,
    alloc: Global,
    monitor: &Monitor<Space<J>>,
    limits: &Limits,
    pass: &mut Pass<Space<J>>,
    keeping: &mut Keeping<C, D>,
    shuts: bool,
) -> KeeperEnd
    requires { IsReady monitor.now pass.old }
    ensures pass { IsReady monitor.now pass.new }
    ensures clock { NotFewer (C.readings keeping.old.clock) (C.readings keeping.new.clock) }
{
    let mut turns = Shared::new(rt, monitor, pass);
    keeping.keeper.step(
        alloc,
        &mut turns,
        &mut keeping.clock,
        &mut keeping.dialer,
        limits,
        shuts,
    )
}

/// Whether a step that was to shut the space did so, or found it shut.
fn is_tried(end: KeeperEnd) -> bool {
    matches!(end, KeeperEnd::Idle | KeeperEnd::Asked(_))
}

/// The keeper's clock; the rest is dropped.
pub(crate) fn into_clock<C: Clock + Drop, D: Dialer + Drop>(keeping: Keeping<C, D>) -> C
    ensures { result ≡ keeping.clock }
{
    let Keeping {
        keeper,
        clock,
        dialer: _,
        shut_at: _,
    } = keeping;
    drop(keeper);
    clock
}
