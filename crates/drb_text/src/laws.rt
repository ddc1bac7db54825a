//! What follows: the function is a theorem, which its contract states.

ghost use Rattle.drb_text.specs.Laws.{ReadsShown};

/// What is shown of a value that fits is read as that value again.
///
/// `drb_value::fits` tells whether a value fits, and where it says yes its clauses give all that the theorem asks of
/// the value.
/// Source: docs/TEXT.md, Showing.
pub fn reads_shown()
    ensures { ReadsShown }
{}
