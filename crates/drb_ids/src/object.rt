use rinda_rules::{Last, ObjectKind};

/// An id that names an object which has not ended.
#[derive(Clone, Copy, Debug, PartialEq, Eq)]
pub struct LiveId {
    pub id: u64,
    pub kind: ObjectKind,
}

/// What is known of an id.
///
/// Source: docs/SPACE.md, Rows.
#[derive(Clone, Copy, Debug, PartialEq, Eq)]
pub enum Looked {
    /// It names an object of that kind.
    Live(ObjectKind),
    /// It named an object of that kind, one of the last 4,096 that ended, which ended so.
    Ended(ObjectKind, Last),
    /// It named an object that ended before these.
    Recycled,
    /// It has not been given out.
    Never,
}

/// What an id names that is live, or is one of the last that ended.
#[derive(Clone, Copy, Debug, PartialEq, Eq)]
pub(crate) enum Standing {
    Live(ObjectKind),
    Ended(ObjectKind, Last),
}
