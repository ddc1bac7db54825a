//! Exceptions of Ruby, which a failure answers.

ghost use Rattle.std.specs.Prelude.{◌≡◌, IfOk, IsTrue, codes};
ghost use Rattle.drb_tree.specs.Same.{all_ascii};
ghost use Rattle.drb_ref.specs.Exceptions.{exception_tree};

use drb_value::{Code, FieldList, Items, Name, NameError, Text, Value};
use std::alloc::{AllocError, Global};

/// An exception of this class, with a message in UTF-8 and without a backtrace.
///
/// The class's name is ASCII, as the names of Ruby's own exceptions are.
/// Errors: only want of memory.
/// Source: Ruby's error.c, exc_exception, and marshal.c; docs/WIRE.md, Exceptions.
pub fn exception(alloc: Global, class: &[u8], message: &[u8]) -> Result<Value, AllocError>
    requires { IsTrue (all_ascii class.now) }
    ensures { IfOk result (λ value. value ≡ exception_tree class.now message.now) }
{
    let class = ascii_name(alloc, class)?;
    let mut fields = FieldList::new(alloc);
    let message = Text::of(alloc, message, Code::Utf8)?;
    fields.push_new(ascii_name(alloc, b"mesg")?, Value::text(message))?;
    fields.push_new(ascii_name(alloc, b"bt")?, Value::list(Items::new(alloc)))?;
    Value::object(alloc, class, fields)
}

/// The name of these bytes.
pub fn ascii_name(alloc: Global, bytes: &[u8]) -> Result<Name, AllocError>
    requires { IsTrue (all_ascii bytes.now) }
    ensures { IfOk result (λ name. name ≡ bytes.now) }
{
    match Name::of(alloc, bytes) {
        Ok(name) => Ok(name),
        Err(NameError::Memory) => Err(AllocError),
        Err(NameError::NotUtf8) => unreachable!(),
    }
}
