// A dialer with a list of lines.
ghost use Rattle.std.specs.Prelude.{◌≡◌, ◌≤◌, ◌<◌, true, vec_len, vec_capacity};

/// How the dial of a line went.
#[derive(Clone, Copy, Debug, PartialEq, Eq)]
pub enum Dialed {
    /// It wasn't dialled.
    No,
    /// It failed, and the address could not be kept.
    Unkept,
    /// It failed.
    Refused,
    /// The peer answered.
    Made,
}

/// What the peer of one dial does, and what came of it.
#[derive(Drop)]
pub struct Line {
    /// Whether the dial fails.
    pub refuses: bool,
    /// The bytes that the peer gives.
    pub gives: Vec<u8>,
    /// The host that was called.
    pub host: Vec<u8>,
    /// The port that was called.
    pub port: u16,
    /// The bytes that were sent to the peer.
    pub takes: Vec<u8>,
    // how many of the bytes that the peer gives were received
    pub(crate) received: usize,
    pub(crate) dialed: Dialed,
    ghost given: { received ≤ vec_len gives },
}

impl Line {
    /// A line that wasn't dialled. The capacities of `host` and `takes` are the room that they have; what they hold goes.
    pub fn new(refuses: bool, gives: Vec<u8>, host: Vec<u8>, takes: Vec<u8>) -> Line
        ensures refuses { result.refuses ≡ refuses }
        ensures gives { result.gives ≡ gives }
        ensures host { vec_capacity result.host ≡ vec_capacity host }
        ensures takes { vec_capacity result.takes ≡ vec_capacity takes }
    {
        Line {
            refuses,
            gives,
            host,
            port: 0,
            takes,
            received: 0,
            dialed: Dialed::No,
        }
    }
}

/// A dialer whose peers do what a list of lines says, with chosen failures. It takes no memory after it is made.
///
/// Each dial takes the next line, also where it fails. A dial past the last line, or of a host longer than the room of
/// its line, fails, and its record has no address. So does a send for which its line has no room, and sends nothing.
#[derive(Drop)]
pub struct ScriptDialer {
    pub(crate) lines: Vec<Line>,
    pub(crate) fail: Vec<u64>,
    // how many lines were dialled
    pub(crate) used: usize,
    // how many dials came past the last line
    pub(crate) past: u64,
    pub(crate) up: bool,
    pub(crate) call: u64,
    pub(crate) faults: u64,
    ghost within: { used ≤ vec_len lines },
    ghost last_up: { up ≡ true → (0 < used) × (past ≡ 0) },
    ghost all_used: { 0 < past → used ≡ vec_len lines },
    ghost counted: { past ≤ faults },
}
