//! The workers, each at one guest after the other.

ghost use Rattle.std.specs.Prelude.{◌≡◌, true, All, IfSome};
ghost use Rattle.drb_monitor.specs.Passes.{IsPassOf};
ghost use Rattle.drb_shared.specs.Sharing.{IsReady};

use crate::entrance::{Entrance, Naming};
use crate::settings::Gate;
use drb_dispatch::Place;
use drb_doors::{Doors, Guest};
use drb_monitor::{Monitor, Pass};
use drb_script::Patience;
use drb_session::serve_session;
use drb_shared::Shared;
use rinda_rules::Journal;
use rinda_space::Space;
use std::alloc::Global;
use std::sync::atomic::{AtomicU64, Ordering};
use std::sync::{Mutex, Wait};
use std::thread;
use std::thread::Threads;

/// Serves one guest. What the guest came with is dropped then, so its connection closes.
fn serve_guest<N: Doors, J: Journal, R: Wait>(
    rt: &R,
    alloc: Global,
    monitor: &Monitor<Space<J>>,
    place: &Place,
    pass: &mut Pass<Space<J>>,
    guest: Guest<N::In, N::Out, N::Time, N::Calls>,
)
    requires { IsReady monitor.now pass.old }
    ensures { IsReady monitor.now pass.new }
{
    let Guest {
        mut input,
        mut output,
        mut clock,
        mut dialer,
    } = guest;
    let mut turns = Shared::new(rt, monitor, pass);
    serve_session(
        alloc,
        &mut turns,
        place,
        &mut input,
        &mut output,
        &mut clock,
        &mut dialer,
        Patience::Wait,
    );
}

/// Takes one guest after the other, until no more are taken.
fn work<N: Doors, J: Journal, B: Naming, G: Gate, R: Wait>(
    rt: &R,
    alloc: Global,
    monitor: &Monitor<Space<J>>,
    place: &Place,
    entrance: &Mutex<Entrance<N, B>>,
    gate: &G,
    pass: &mut Pass<Space<J>>,
)
    requires { IsReady monitor.now pass.old }
    ensures { IsReady monitor.now pass.new }
{
    for _ in rt.forever() {
        let next = entrance.lock(rt).admit();
        let Some((number, guest)) = next else {
            break;
        };
        gate.started(number);
        serve_guest::<N, J, R>(rt, alloc, monitor, place, pass, guest);
    }
}

/// One worker for each pass. Then the keeper is told to stop.
pub(crate) fn work_all<
    N: Doors + Send,
    J: Journal + Send,
    B: Naming + Send + Sync,
    G: Gate + Sync,
    R: Threads + Wait + Sync,
>(
    rt: &R,
    alloc: Global,
    monitor: &Monitor<Space<J>>,
    place: &Place,
    entrance: &Mutex<Entrance<N, B>>,
    gate: &G,
    passes: &mut [Pass<Space<J>>],
    stop: &AtomicU64,
)
    requires { All (λ p. IsReady monitor.now p) passes.old }
    ensures { All (λ p. IsReady monitor.now p) passes.new }
{
    let workers = passes.len();
    if workers > 0 {
        thread::for_each_mut(
            rt,
            passes,
            workers,
            &|_, pass: &mut Pass<Space<J>>|
                requires { IsReady monitor.now pass.old }
                ensures { IsReady monitor.entry.now pass.new }
            { work(rt, alloc, monitor, place, entrance, gate, pass) },
        );
    }
    stop.store(1, Ordering::SeqCst);
    stop.wake_all();
}

/// A pass for each worker. None for want of memory.
#[tactic(auto, using(crate::proofs::Passes::ready_apart, crate::proofs::Passes::ready_on))]
pub(crate) fn split_all<J: Journal>(
    alloc: Global,
    monitor: &Monitor<Space<J>>,
    first: &mut Pass<Space<J>>,
    workers: u64,
) -> Option<Vec<Pass<Space<J>>>>
    requires of { IsReady monitor.now first.old }
    requires first { first.old.first ≡ true }
    ensures of { IsReady monitor.now first.new }
    ensures first { first.new.first ≡ true }
    ensures all { IfSome result (λ v. All (λ p. IsReady monitor.now p) v.items) }
{
    let mut passes = Vec::new(alloc);
    for _ in 0..workers {
        let other = monitor.split(first)?;
        passes.push(other).ok()?;
    }
    Some(passes)
}

/// Takes the passes back.
pub(crate) fn join_all<J: Journal>(
    monitor: &Monitor<Space<J>>,
    first: &mut Pass<Space<J>>,
    mut passes: Vec<Pass<Space<J>>>,
)
    requires of { IsPassOf monitor.now first.old }
    requires first { first.old.first ≡ true }
    requires all { All (λ p. IsReady monitor.now p) passes.items }
    ensures of { IsPassOf monitor.now first.new }
    ensures first { first.new.first ≡ true }
{
    while let Some(pass) = passes.pop() {
        monitor.join(first, pass);
    }
}
