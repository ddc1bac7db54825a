/// What one event touched: the one tuple or the one request that may be served after it, and couldn't before.
///
/// Source: docs/SPACE.md, Phases, Serve.
#[derive(Clone, Copy, Debug, PartialEq, Eq)]
pub enum Touched {
    /// Nothing that could be served.
    NoRow,
    /// The tuple with that id.
    ATuple(u64),
    /// The request with that id.
    ARequest(u64),
}
