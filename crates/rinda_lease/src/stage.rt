/// What is to come of an id.
///
/// Source: docs/SPACE.md, Rows.
#[derive(Clone, Copy, Debug, PartialEq, Eq)]
pub enum Stage {
    /// Nothing: it has no row, no deadline, or one that does not count.
    Still,
    /// It is due at that time, in milliseconds.
    Timed(u64),
    /// It was due, and its renewer is to be asked.
    Waiting,
    /// Its renewer is being asked.
    Asked,
}
