//! How guests are served, and what serving came to.

use drb_dispatch::Place;

/// How guests are served.
#[derive(Drop)]
pub struct Settings {
    /// Where the server stands: its uri, and how much it reads.
    pub place: Place,
    /// How many guests are served beside one another, from 1 to 256.
    pub workers: u64,
    /// After how many milliseconds of the keeper's clock the space is shut, if it is.
    pub shut_after: Option<u64>,
}

/// Is told of each session before it begins.
pub trait Gate: Sync {
    /// The session with this number, from 1, begins once this returns. It may wait, and its worker with it.
    fn started(&self, session: u64);
}

/// What serving came to. `turns` and `tuples` are those of the space that is handed back.
#[derive(Clone, Copy, Debug, PartialEq, Eq)]
pub enum Served {
    /// The doors said that no further guest will come.
    Done { turns: u64, tuples: u64 },
    /// The doors failed.
    AcceptFault { turns: u64, tuples: u64 },
    /// There was no memory, and there is no space to hand back.
    Memory,
}
