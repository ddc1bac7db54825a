//! What a keeper owes, and how its steps end.

use drb_tree::Remote;
use rinda_tuple::Life;

/// What a keeper still has to do about an object that is in doubt.
///
/// Source: docs/SESSIONS.md, The keeper.
#[derive(Drop)]
pub enum Owed {
    /// To ask the renewer for how long the object with that id goes on.
    Call { id: u64, renewer: Remote },
    /// To tell the space the life that the renewer answered.
    Turn { id: u64, life: Life },
}

/// How a step of a keeper ended.
///
/// Source: docs/SESSIONS.md, The keeper.
#[derive(Clone, Copy, Debug, PartialEq, Eq)]
pub enum KeeperEnd {
    /// Nothing was owed, and there is no object to ask for.
    Idle,
    /// The space was told the life of the object with that id, and nothing is owed.
    Asked(u64),
    /// The history has as many turns as it may have, which is so many. What was owed stays owed.
    Full { turns: u64 },
    /// There was no memory. What was owed stays owed.
    Memory,
}
