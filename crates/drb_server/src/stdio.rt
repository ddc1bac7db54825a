//! The command `stdio`: one session of the only caller of a new space.

ghost use Rattle.std.specs.Prelude.{◌≡◌, ◌≢◌, ◌↔◌, map, string_bytes, IfOk};
ghost use Rattle.drb_outside.specs.Told.{Rose};
ghost use Rattle.drb_session.specs.Session.{IsWhole};
ghost use Rattle.drb_session.specs.Transcripts.{wire};
ghost use Rattle.drb_server.specs.Words.{Options, Means, options as set};
ghost use Rattle.drb_server.specs.Runs.{RunsAt, Runs, moment, limits_of, place_of, status_of as status_of_spec, IsWholeStatus};

use crate::words::{Setup, read_words};
use drb_dispatch::Place;
use drb_outside::{Clock, Dialer, Sink, Source};
use drb_packet::Limits;
use drb_script::Patience;
use drb_session::{Alone, SessionEnd, serve_session};
use drb_value::{Code, Text};
use rinda_counted::Counted;
use rinda_marks::Secret;
use rinda_space::Space;
use std::alloc::{AllocError, Global};

/// A status of the process.
#[derive(Clone, Copy, Debug, PartialEq, Eq)]
pub struct Status(pub u8);

/// The number of the only caller.
const CALLER: u64 = 0;

/// The most arguments of a request.
const ARGUMENTS: u32 = 256;

/// All that `drbts stdio` does: one session of caller 0, who is alone, over a new space. It waits for nobody.
///
/// Reads the requests of the input one after the other, makes the turns and the outgoing calls of each, and writes its
/// reply, until an end. What the words set, or the defaults, are the uri of the server's own references, how many turns
/// there may be, and the load limit; a request has at most 256 arguments. Under the secret nobody can choose values that
/// fall together in the space's index.
/// Status 0: the input ended where a request would have begun. 1: the words are not those of the command; nothing is
/// read or written. 2: the last request was answered with a failure. 3: the input has no request there; that was
/// answered with an exception, but not where the input was cut between two packets. 4: the input failed. 5: the output
/// failed. 6: there are as many turns as there may be, and the next request wants one more. 7: out of memory.
/// Source: Ruby's drb.rb, DRbServer#main_loop; docs/SESSIONS.md, The command and Ends.
pub fn stdio_run<S: Source, K: Sink, C: Clock, D: Dialer>(
    alloc: Global,
    secret: Secret,
    words: &[String],
    input: &mut S,
    output: &mut K,
    clock: &mut C,
    dialer: &mut D,
) -> Status
    ensures words { result.0 ≡ 1
        ↔ ((o : Options) → Means (map (λ w. string_bytes w) words.now) o → ⊥) }
    ensures untouched { result.0 ≡ 1 → (input.new ≡ input.old) × (output.new ≡ output.old)
        × (clock.new ≡ clock.old) × (dialer.new ≡ dialer.old) }
    ensures runs { (o : Options) → Means (map (λ w. string_bytes w) words.now) o → Runs o result.0
        (moment (C.readings clock.old) (D.calls dialer.old) (D.faults dialer.old)
        (wire (S.left input.old) (S.faults input.old) (K.given output.old) (K.faults output.old)))
        (moment (C.readings clock.new) (D.calls dialer.new) (D.faults dialer.new)
        (wire (S.left input.new) (S.faults input.new) (K.given output.new) (K.faults output.new))) }
    ensures in_fault { result.0 ≡ 4 → Rose (S.faults input.old) (S.faults input.new) }
    ensures out_fault { result.0 ≡ 5 → Rose (K.faults output.old) (K.faults output.new) }
    ensures complete { (o : Options) → Means (map (λ w. string_bytes w) words.now) o →
        IsWhole (limits_of o) (S.left input.old) →
        (Rose (S.faults input.old) (S.faults input.new) → ⊥) →
        (Rose (K.faults output.old) (K.faults output.new) → ⊥) → IsWholeStatus result.0 }
{
    match read_words(words) {
        Some(setup) => Status(run(alloc, secret, &setup, input, output, clock, dialer)),
        None => Status(1),
    }
}

/// The session that this sets, where there is memory for its place.
fn run<S: Source, K: Sink, C: Clock, D: Dialer>(
    alloc: Global,
    secret: Secret,
    setup: &Setup,
    input: &mut S,
    output: &mut K,
    clock: &mut C,
    dialer: &mut D,
) -> u8
    ensures other { result ≢ 1 }
    ensures runs { Runs (set setup.now.uri.now setup.now.max_turns setup.now.load_limit) result
        (moment (C.readings clock.old) (D.calls dialer.old) (D.faults dialer.old)
        (wire (S.left input.old) (S.faults input.old) (K.given output.old) (K.faults output.old)))
        (moment (C.readings clock.new) (D.calls dialer.new) (D.faults dialer.new)
        (wire (S.left input.new) (S.faults input.new) (K.given output.new) (K.faults output.new))) }
    ensures in_fault { result ≡ 4 → Rose (S.faults input.old) (S.faults input.new) }
    ensures out_fault { result ≡ 5 → Rose (K.faults output.old) (K.faults output.new) }
    ensures complete { IsWhole
        (limits_of (set setup.now.uri.now setup.now.max_turns setup.now.load_limit))
        (S.left input.old) →
        (Rose (S.faults input.old) (S.faults input.new) → ⊥) →
        (Rose (K.faults output.old) (K.faults output.new) → ⊥) → IsWholeStatus result }
{
    match place_of(alloc, setup) {
        Ok(place) => {
            let status = run_alone(
                alloc,
                secret,
                &place,
                setup.max_turns,
                input,
                output,
                clock,
                dialer,
            );
            drop(place);
            status
        }
        Err(_) => 7,
    }
}

fn place_of(alloc: Global, setup: &Setup) -> Result<Place, AllocError>
    ensures { IfOk result (λ place. place ≡ place_of (set setup.now.uri.now setup.now.max_turns setup.now.load_limit)) }
{
    let uri = Text::of(alloc, setup.uri.as_bytes(), Code::Utf8)?;
    let limits = Limits {
        load: setup.load_limit,
        args: ARGUMENTS,
    };
    Ok(Place { uri, limits })
}

/// A session of the only caller of a new space, whose history may have so many turns.
fn run_alone<S: Source, K: Sink, C: Clock, D: Dialer>(
    alloc: Global,
    secret: Secret,
    place: &Place,
    max_turns: u64,
    input: &mut S,
    output: &mut K,
    clock: &mut C,
    dialer: &mut D,
) -> u8
    ensures other { result ≢ 1 }
    ensures runs { RunsAt place.now max_turns result
        (moment (C.readings clock.old) (D.calls dialer.old) (D.faults dialer.old)
        (wire (S.left input.old) (S.faults input.old) (K.given output.old) (K.faults output.old)))
        (moment (C.readings clock.new) (D.calls dialer.new) (D.faults dialer.new)
        (wire (S.left input.new) (S.faults input.new) (K.given output.new) (K.faults output.new))) }
    ensures in_fault { result ≡ 4 → Rose (S.faults input.old) (S.faults input.new) }
    ensures out_fault { result ≡ 5 → Rose (K.faults output.old) (K.faults output.new) }
    ensures complete { IsWhole place.now.limits (S.left input.old) →
        (Rose (S.faults input.old) (S.faults input.new) → ⊥) →
        (Rose (K.faults output.old) (K.faults output.new) → ⊥) → IsWholeStatus result }
{
    let mut space = Space::new(alloc, secret, Counted::new(max_turns));
    let mut alone = Alone::new(&mut space, CALLER);
    let end = serve_session(
        alloc,
        &mut alone,
        place,
        input,
        output,
        clock,
        dialer,
        Patience::Never,
    );
    status_of(end)
}

fn status_of(end: SessionEnd) -> u8
    ensures value { result ≡ status_of_spec end }
    ensures other { result ≢ 1 }
{
    match end {
        SessionEnd::Ended => 0,
        SessionEnd::Raised => 2,
        SessionEnd::Refused(_) => 3,
        SessionEnd::ReadFault => 4,
        SessionEnd::WriteFault => 5,
        SessionEnd::Full { .. } => 6,
        SessionEnd::Memory => 7,
    }
}
