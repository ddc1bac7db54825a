ghost use Rattle.std.specs.Prelude.{◌≡◌};
ghost use Rattle.rinda_rules.specs.Journals.{empty};

use http_server::Log;
use rinda_rules::{Event, Journal, JournalError, Out, Picks};
use std::marker::Model;

/// The number of a space's turns. What they were is known to proofs alone.
#[derive(Drop)]
pub struct Counted {
    count: u64,
    cap: u64,
    ready: bool,
    events: Log<(u64, u64), Event>,
    answers: Log<Out, Picks>,
    next_events: Log<(u64, u64), Event>,
    next_answers: Log<Out, Picks>,
}

impl Model for Counted {
    ghost use Rattle.drb_tree.specs.contracts.Tree as e;
    ghost use Rattle.std.specs.Coded.{codes};
    ghost use Rattle.rinda_rules.specs.Journals.{Journaled};
    ghost use Rattle.rinda_counted.specs.Counts.{turns_of, ahead_of, Counts};

    ghost Value = { Journaled };

    ghost coded = { Prim.hlevel (codes, e.the_row.coded) };

    ghost view = { λ j. record {
      turns = turns_of j.events.items j.answers.items;
      ahead = ahead_of j.ready j.events.items j.answers.items j.next_events.items
          j.next_answers.items;
      cap = j.cap;
    } };

    ghost invariant = { λ j.
        Counts j.count j.cap j.ready j.events.items j.answers.items j.next_events.items
        j.next_answers.items };
}

impl Counted {
    /// No turn, and at most `cap` of them: any number up to the greatest u64. Takes no memory.
    pub fn new(cap: u64) -> Counted
        ensures { result ≡ empty cap }
    {
        Counted {
            count: 0,
            cap,
            ready: false,
            events: Log::new(),
            answers: Log::new(),
            next_events: Log::new(),
            next_answers: Log::new(),
        }
    }
}

impl Journal for Counted {
    ghost turns = { λ j. j.turns };

    ghost ahead = { λ j. j.ahead };

    ghost cap = { λ j. j.cap };

    fn prepare(
        &mut self,
        caller: u64,
        at: u64,
        event: &Event,
        out: &Out,
        picks: &Picks,
    ) -> Result<(), JournalError> {
        if self.count == self.cap {
            return Err(JournalError::Full);
        }
        self.next_events = self.events.and(&(caller, at), event);
        self.next_answers = self.answers.and(out, picks);
        self.ready = true;
        Ok(())
    }

    fn commit(&mut self) {
        if self.ready {
            self.events = std::mem::replace(&mut self.next_events, Log::new());
            self.answers = std::mem::replace(&mut self.next_answers, Log::new());
            self.count += 1;
            self.ready = false;
        }
    }

    fn len(&self) -> u64 {
        self.count
    }
}
