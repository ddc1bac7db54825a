//! All of it: the space, the threads, and the end.

ghost use Rattle.std.specs.Prelude.{◌≡◌, ◌≤◌, ◌<◌, [], All, IfSome, None, Some, length, true};
ghost use Rattle.drb_shared.specs.Sharing.{IsReady};
ghost use Rattle.drb_serving.specs.Serving.{IsServed, outside, NotFewer};
ghost use Rattle.drb_serving.specs.Parts.{IsOpened, IsClosed, Kept, is_memory};

use crate::entrance::{Entrance, Naming, Stand};
use crate::keeping::{Keeping, into_clock, keep_on};
use crate::settings::{Gate, Served, Settings};
use crate::work::{join_all, split_all, work_all};
use drb_doors::Doors;
use drb_keeper::KeeperEnd;
use drb_monitor::{Monitor, Pass};
use drb_outside::{Clock, Dialer};
use drb_packet::Limits;
use drb_session::Alone;
use rinda_marks::Secret;
use rinda_rules::Journal;
use rinda_space::Space;
use std::alloc::Global;
use std::marker::Brand;
use std::sync::atomic::AtomicU64;
use std::sync::{Mutex, Wait};
use std::thread;
use std::thread::Threads;

/// The keeper's number: its pass is the first that is split off.
const KEEPER: u64 = 1;

/// Serves guests at one new space until no further one will come or the doors fail, and hands all back.
///
/// `settings.workers` threads, from 1 to 256, take one guest after the other. Each calls the gate with the guest's number,
/// from 1 on, serves the guest's session, waiting where it has to, drops what the guest came with, and takes the next one,
/// whatever the session's end. A keeper steps beside them by its clock, in milliseconds: it lets the space age, asks
/// renewers by its dialer, and shuts the space once a reading is at least its first one and `settings.shut_after`. The
/// space keeps its turns in the journal, which has to be without turns, and has at most as many as that may hold. Once the
/// workers have returned, the keeper makes one last step.
/// Answers: `Done` only where the doors said that nobody will come and no guest is left of those that they tell;
/// `AcceptFault` only where the doors failed; `Memory` at any time. Beside the first two stands the space, whose turns and
/// tuples are so many, and whose history is one legal run of the rules; beside `Memory` there is none. The doors and the
/// clock are handed back always. But for `Memory` the clock was read, and where the history has room for a further turn
/// nothing is due at its last reading.
/// Source: Ruby's drb.rb, DRbServer#run, and tuplespace.rb, TupleSpace#keep_clean; docs/SESSIONS.md, Many callers.
pub fn serve_run<
    N: Doors + Send,
    C: Clock + Send + Drop,
    D: Dialer + Send + Drop,
    G: Gate + Sync,
    J: Journal + Send,
    R: Threads + Wait + Sync,
>(
    rt: &R,
    alloc: Global,
    secret: Secret,
    settings: &Settings,
    journal: J,
    doors: N,
    clock: C,
    dialer: D,
    gate: &G,
) -> (Served, N, C, Option<Space<J>>)
    requires workers { (1 ≤ settings.now.workers) × (settings.now.workers ≤ 256) }
    requires empty { J.turns journal ≡ [] }
    ensures { IsServed (J.cap journal)
        (outside (N.faults doors) (N.ends doors) (C.readings clock))
        (outside (N.faults result.1) (N.ends result.1) (C.readings result.2))
        (N.guests result.1) result.3 result.0 }
{
    serve_named::<N, C, D, G, J, Brand, R>(
        rt, alloc, secret, settings, journal, doors, clock, dialer, gate,
    )
}

/// All of it, where the doors' counts have names.
fn serve_named<
    N: Doors + Send,
    C: Clock + Send + Drop,
    D: Dialer + Send + Drop,
    G: Gate + Sync,
    J: Journal + Send,
    B: Naming + Send + Sync,
    R: Threads + Wait + Sync,
>(
    rt: &R,
    alloc: Global,
    secret: Secret,
    settings: &Settings,
    journal: J,
    doors: N,
    clock: C,
    dialer: D,
    gate: &G,
) -> (Served, N, C, Option<Space<J>>)
    requires workers { (1 ≤ settings.now.workers) × (settings.now.workers ≤ 256) }
    requires empty { J.turns journal ≡ [] }
    requires faults { B.faults ≡ N.faults doors }
    requires ends { B.ends ≡ N.ends doors }
    ensures { IsServed (J.cap journal) (outside B.faults B.ends (C.readings clock))
        (outside (N.faults result.1) (N.ends result.1) (C.readings result.2))
        (N.guests result.1) result.3 result.0 }
{
    let space = Space::new(alloc, secret, journal);
    let Some((monitor, first, keeper, passes)) = open(alloc, space, settings.workers) else {
        return (Served::Memory, doors, clock, None);
    };
    let entrance = Mutex::new(Entrance::<N, B>::new(doors));
    let (passes, (keeper, mut keeping)) = run(
        rt, alloc, &monitor, settings, &entrance, gate, keeper, clock, dialer, passes,
    );
    let Entrance {
        doors,
        stand,
        came: _,
        of: _,
    } = entrance.into_inner();
    let Some(mut space) = close(monitor, first, keeper, passes) else {
        return (Served::Memory, doors, into_clock(keeping), None);
    };
    if !last_step(alloc, &mut space, &mut keeping, &settings.place.limits) {
        return (Served::Memory, doors, into_clock(keeping), None);
    }
    let turns = space.turns();
    let tuples = space.tuples();
    let clock = into_clock(keeping);
    match stand {
        Stand::Ended => (Served::Done { turns, tuples }, doors, clock, Some(space)),
        Stand::Broken => (
            Served::AcceptFault { turns, tuples },
            doors,
            clock,
            Some(space),
        ),
        // not where the workers returned; no clause says so
        Stand::Open => (Served::Memory, doors, clock, None),
    }
}

/// A monitor of the space, with its first pass, one for the keeper and one for each worker. None for want of memory.
fn open<J: Journal>(
    alloc: Global,
    space: Space<J>,
    workers: u64,
) -> Option<
    (
        Monitor<Space<J>>,
        Pass<Space<J>>,
        Pass<Space<J>>,
        Vec<Pass<Space<J>>>,
    ),
>
    requires workers { workers ≤ 256 }
    requires start { space.start ≡ None }
    requires turns { space.turns ≡ [] }
    ensures { IfSome result (λ r. IsOpened space.cap r.0 r.1 r.2 r.3.items) }
{
    let Ok((monitor, mut first)) = Monitor::new(alloc, space, workers + 2) else {
        return None;
    };
    let keeper = monitor.split(&mut first)?;
    let passes = split_all(alloc, &monitor, &mut first, workers)?;
    Some((monitor, first, keeper, passes))
}

/// The workers, and the keeper beside them.
fn run<
    N: Doors + Send,
    C: Clock + Send + Drop,
    D: Dialer + Send + Drop,
    G: Gate + Sync,
    J: Journal + Send,
    B: Naming + Send + Sync,
    R: Threads + Wait + Sync,
>(
    rt: &R,
    alloc: Global,
    monitor: &Monitor<Space<J>>,
    settings: &Settings,
    entrance: &Mutex<Entrance<N, B>>,
    gate: &G,
    keeper: Pass<Space<J>>,
    clock: C,
    dialer: D,
    passes: Vec<Pass<Space<J>>>,
) -> (Vec<Pass<Space<J>>>, (Pass<Space<J>>, Keeping<C, D>))
    requires keeper { IsReady monitor.now keeper }
    requires workers { All (λ p. IsReady monitor.now p) passes.items }
    ensures workers { All (λ p. IsReady monitor.now p) result.0.items }
    ensures keeper { IsReady monitor.now result.1.0 }
    ensures clock { NotFewer (C.readings clock) (C.readings result.1.1.clock) }
{
    let stop = AtomicU64::new(0);
    let stopped = &stop;
    let place = &settings.place;
    let shut_after = settings.shut_after;
    thread::join(
        rt,
        move || -> Vec<Pass<Space<J>>>
            requires { All (λ p. IsReady monitor.now p) passes.items }
            ensures { All (λ p. IsReady monitor.entry.now p) result.items }
        {
            let mut passes = passes;
            work_all(
                rt,
                alloc,
                monitor,
                place,
                entrance,
                gate,
                passes.as_mut_slice(),
                stopped,
            );
            passes
        },
        move || -> (Pass<Space<J>>, Keeping<C, D>)
            requires { IsReady monitor.now keeper }
            ensures { IsReady monitor.entry.now result.0
                × NotFewer (C.readings clock) (C.readings result.1.clock) }
        {
            keep_on(
                rt,
                alloc,
                monitor,
                &place.limits,
                shut_after,
                keeper,
                clock,
                dialer,
                stopped,
            )
        },
    )
}

/// The space, once all passes are joined.
fn close<J: Journal>(
    monitor: Monitor<Space<J>>,
    first: Pass<Space<J>>,
    keeper: Pass<Space<J>>,
    passes: Vec<Pass<Space<J>>>,
) -> Option<Space<J>>
    requires { IsOpened monitor.basis.1 monitor first keeper passes.items }
    ensures { IfSome result (IsClosed monitor.basis.1) }
{
    let mut first = first;
    monitor.join(&mut first, keeper);
    join_all(&monitor, &mut first, passes);
    match monitor.close(first) {
        Ok(space) => Some(space),
        Err(_) => None,
    }
}

/// One step of the keeper over the space that is handed back. False for want of memory.
fn last_step<C: Clock + Drop, D: Dialer + Drop, J: Journal>(
    alloc: Global,
    space: &mut Space<J>,
    keeping: &mut Keeping<C, D>,
    limits: &Limits,
) -> bool
    requires { IsClosed space.old.cap space.old }
    ensures { result ≡ true → Kept space.old.cap space.new
        (C.readings keeping.old.clock) (C.readings keeping.new.clock) }
{
    // a count that fits says that the history is short enough for a caller
    let _turns = space.turns();
    let mut alone = Alone::new(space, KEEPER);
    let end = keeping.keeper.step(
        alloc,
        &mut alone,
        &mut keeping.clock,
        &mut keeping.dialer,
        limits,
        false,
    );
    !is_memory(end)
}

fn is_memory(end: KeeperEnd) -> bool
    ensures { result ≡ is_memory end }
{
    matches!(end, KeeperEnd::Memory)
}
