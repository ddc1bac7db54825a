// How callers wait for one object of the machine. No clause speaks of it: a thread that wakes for no reason looks again.
//
// It is made so that no waking is lost. Who makes a turn that changes the object writes the number of that turn into the object's bell,
// while its ticket is still served, and reads afterwards how many sleep there. Who waits counts itself among the sleepers
// first, and reads the bell's number afterwards. So one of the two sees what the other wrote: either the waiting one
// reads the number and does not sleep, or the other reads that somebody sleeps and wakes it. One that has read an older
// number and not fallen asleep yet does not sleep: the bell's number is no longer the one that it read. The numbers of
// a bell only grow, since they are written by those whose ticket is served.
use std::alloc::{AllocError, Global};
use std::sync::Wait;
use std::sync::atomic::{AtomicU64, Ordering};

// How many bells there are: the ids of the objects are spread over them.
const BELLS: usize = 1024;

// How many objects a turn names one by one. A turn that changes more rings all bells.
const NAMED: usize = 8;

// The objects that a turn changed.
#[derive(Clone, Copy)]
pub(crate) struct Changed {
    ids: [u64; NAMED],
    count: usize,
}

impl Changed {
    pub(crate) fn none() -> Changed {
        Changed {
            ids: [0; NAMED],
            count: 0,
        }
    }

    // The first of these ids, and how many there are.
    pub(crate) fn of(named: &[u64]) -> Changed {
        let mut ids = [0; NAMED];
        for (place, id) in ids.iter_mut().zip(named) {
            *place = *id;
        }
        Changed {
            ids,
            count: named.len(),
        }
    }
}

// Where threads sleep that wait for an object: the number of the last turn that changed it, and how many are there or
// about to come.
#[derive(Drop)]
struct Bell {
    rung: AtomicU64,
    sleepers: AtomicU64,
}

impl Bell {
    fn note(&self, turns: u64) {
        self.rung.store(turns, Ordering::SeqCst);
    }

    fn ring(&self) {
        if self.sleepers.load(Ordering::SeqCst) > 0 {
            self.rung.wake_all();
        }
    }
}

// The bells. Who waits for an object sleeps at the bell of its id's last bits.
#[derive(Drop)]
pub(crate) struct Bells {
    bells: Vec<Bell>,
}

impl Bells {
    pub(crate) fn new(alloc: Global) -> Result<Bells, AllocError> {
        let mut bells = Vec::new(alloc);
        for _ in 0..BELLS {
            bells.push(Bell {
                rung: AtomicU64::new(0),
                sleepers: AtomicU64::new(0),
            })?;
        }
        Ok(Bells { bells })
    }

    fn bell(&self, id: u64) -> Option<&Bell> {
        self.bells.get((id & 1023) as usize)
    }

    // Notes that the turn with this number changed these objects. Call it while the turn's ticket is served.
    pub(crate) fn note(&self, changed: &Changed, turns: u64) {
        if changed.count > NAMED {
            for bell in &self.bells {
                bell.note(turns);
            }
            return;
        }
        for id in changed.ids.iter().take(changed.count) {
            if let Some(bell) = self.bell(*id) {
                bell.note(turns);
            }
        }
    }

    // Wakes those who wait for these objects, where somebody does. Call it after `note`.
    pub(crate) fn ring(&self, changed: &Changed) {
        if changed.count > NAMED {
            for bell in &self.bells {
                bell.ring();
            }
            return;
        }
        for id in changed.ids.iter().take(changed.count) {
            if let Some(bell) = self.bell(*id) {
                bell.ring();
            }
        }
    }

    // Sleeps until a turn with a number above `turns` changed the object. It may return for no reason.
    pub(crate) fn sleep<R: Wait>(&self, rt: &R, id: u64, turns: u64) {
        if let Some(bell) = self.bell(id) {
            bell.sleepers.fetch_add(1, Ordering::SeqCst);
            let rung = bell.rung.load(Ordering::SeqCst);
            if rung <= turns {
                bell.rung.park(rt, (rung & 0xffff_ffff) as u32);
            }
            bell.sleepers.fetch_sub(1, Ordering::SeqCst);
        }
    }

    // Whether a turn with a number above `turns` changed the object, or another with the same bell.
    pub(crate) fn rang(&self, id: u64, turns: u64) -> bool {
        match self.bell(id) {
            Some(bell) => bell.rung.load(Ordering::SeqCst) > turns,
            None => true,
        }
    }
}
