//! What many turns came to, counted.

use crate::answers::{given_by, word_of};
use crate::chance::Chance;
use crate::showing::{Came, Shown};
use crate::words::Fault;
use rinda_rules::{Event, Out};
use std::alloc::Global;
use std::io;

/// How often an answer came.
#[derive(Clone, Copy)]
struct Count {
    word: &'static str,
    times: u64,
}

/// What became of events, counted.
#[derive(Drop)]
pub struct Tally {
    turns: u64,
    nothing: u64,
    full: u64,
    picks: u64,
    answers: Vec<Count>,
}

impl Tally {
    pub fn new(alloc: Global) -> Tally {
        Tally {
            turns: 0,
            nothing: 0,
            full: 0,
            picks: 0,
            answers: Vec::new(alloc),
        }
    }

    /// Counts what came of one event. The judge has to say yes to each turn.
    pub fn add(&mut self, came: Came, shown: &mut Shown) -> Result<(), Fault> {
        match came {
            Came::Made => {
                if !shown.judge_on() {
                    return Err(Fault::Illegal);
                }
                self.turns = self.turns.saturating_add(1);
                self.add_newest(shown)
            }
            Came::Nothing { turns: _ } => {
                self.nothing = self.nothing.saturating_add(1);
                Ok(())
            }
            Came::Full { turns: _ } => {
                self.full = self.full.saturating_add(1);
                Ok(())
            }
        }
    }

    fn add_newest(&mut self, shown: &Shown) -> Result<(), Fault> {
        match shown.newest() {
            Some(turn) => {
                let picks = turn.picks.as_slice().len() as u64;
                self.picks = self.picks.saturating_add(picks);
                self.add_answer(word_of(&turn.out))
            }
            None => Ok(()),
        }
    }

    fn add_answer(&mut self, word: &'static str) -> Result<(), Fault> {
        for count in self.answers.iter_mut() {
            if count.word == word {
                count.times = count.times.saturating_add(1);
                return Ok(());
            }
        }
        self.answers.push(Count { word, times: 1 })?;
        Ok(())
    }

    /// Prints the counts of turns and, where they are wanted, those of answers.
    pub fn show(&self, rt: &impl Print, with_answers: bool) -> io::Result<()> {
        print!(rt; "{} turns, all legal", self.turns)?;
        if self.nothing > 0 {
            print!(rt; ", {} nothing", self.nothing)?;
        }
        if self.full > 0 {
            print!(rt; ", {} full", self.full)?;
        }
        println!(rt; "")?;
        if with_answers {
            self.show_answers(rt)?;
        }
        Ok(())
    }

    fn show_answers(&self, rt: &impl Print) -> io::Result<()> {
        print!(rt; " {} picks", self.picks)?;
        for count in self.answers.iter() {
            print!(rt; ", {} {}", count.times, count.word)?;
        }
        println!(rt; "")
    }
}

/// Plays so many events by chance. Near their end the space is shut.
pub fn play_by_chance(
    alloc: Global,
    shown: &mut Shown,
    tally: &mut Tally,
    seed: u64,
    count: u64,
) -> Result<(), Fault> {
    let mut chance = Chance::new(alloc, seed);
    let mut done = Ok(());
    for step in 0..count {
        done = play_one(shown, tally, &mut chance, count - step <= 100);
        if done.is_err() {
            break;
        }
    }
    drop(chance);
    done
}

fn play_one(
    shown: &mut Shown,
    tally: &mut Tally,
    chance: &mut Chance,
    shut: bool,
) -> Result<(), Fault> {
    let at = chance.reading();
    let (caller, event) = chance.event(shut)?;
    play_event(shown, tally, chance, caller, at, event)
}

fn play_event(
    shown: &mut Shown,
    tally: &mut Tally,
    chance: &mut Chance,
    caller: u64,
    at: u64,
    event: Event,
) -> Result<(), Fault> {
    let came = shown.play(caller, at, event)?;
    if let Came::Made = came {
        learn(shown, chance, caller)?;
    }
    tally.add(came, shown)
}

/// The ids in the newest answer are remembered.
fn learn(shown: &Shown, chance: &mut Chance, caller: u64) -> Result<(), Fault> {
    let Some(turn) = shown.newest() else {
        return Ok(());
    };
    if let Out::Ask(id, _) = &turn.out {
        chance.asks(*id);
    }
    match given_by(&turn.out) {
        Some((id, kind)) => chance.gave(id, caller, kind),
        None => Ok(()),
    }
}
