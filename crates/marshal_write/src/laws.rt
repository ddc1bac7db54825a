//! What can be said of what was written: the function is a theorem, which its contract states.

ghost use Rattle.marshal_write.specs.Laws.{ReadAgain};

/// What `write_dump` appended of a value that fits is read again as that value, whatever follows.
///
/// `drb_value::fits` tells whether a value fits, and where it says yes its clauses give all that the theorem asks of the
/// value; `Ok` of `write_dump` gives the rest.
/// Source: docs/MARSHAL.md, The written spelling.
pub fn written_is_read_again()
    ensures { ReadAgain }
{}
