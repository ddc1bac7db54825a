/// Whether a session waits for what isn't there yet.
///
/// Source: docs/SESSIONS.md, Scripts.
#[derive(Clone, Copy, Debug, PartialEq, Eq)]
pub enum Patience {
    /// It withdraws, and is told that it would wait.
    Never,
    /// It looks again and again.
    Wait,
}
