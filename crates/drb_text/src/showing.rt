//! Values shown: the walk over lists, and values that are written as their dump.

ghost use Rattle.std.specs.Prelude.{◌∷◌, map};
ghost use Rattle.hex.specs.Hex.{encode_lower};
ghost use Rattle.drb_text.specs.Puts.{Appends, MayShow};
ghost use Rattle.drb_text.specs.Shown.{showing, bracketed, separated, behind_commas, dump_piece};

use crate::forms::put_plain;
use drb_value::{Node, Value};
use marshal_write::{WriteError, write_dump};
use std::alloc::AllocError;

/// Appends the text of the value.
#[cycle(showing)]
pub(crate) fn put_value(value: &Value, out: &mut Vec<u8>) -> Result<(), WriteError>
    ensures { MayShow (showing value.now) out.old.items out.new.items result }
{
    if let Node::List(items) = &value.node {
        return put_list(items.as_slice(), out);
    }
    if put_plain(&value.node, out)? {
        return Ok(());
    }
    put_dump(value, out)
}

/// Appends a list of these items.
#[cycle(showing)]
fn put_list(items: &[Value], out: &mut Vec<u8>) -> Result<(), WriteError>
    ensures { MayShow (bracketed (map showing items.now)) out.old.items out.new.items result }
{
    out.extend_from_slice(b"[")?;
    put_items(items, out)?;
    out.extend_from_slice(b"]")?;
    Ok(())
}

/// Appends items with `, ` between them.
#[cycle(showing)]
fn put_items(items: &[Value], out: &mut Vec<u8>) -> Result<(), WriteError>
    ensures { MayShow (separated (map showing items.now)) out.old.items out.new.items result }
{
    let Some((first, more)) = items.split_first() else {
        return Ok(());
    };
    put_value(first, out)?;
    for item in more {
        out.extend_from_slice(b", ")?;
        put_value(item, out)?;
    }
    Ok(())
}

/// Appends `#` and the dump of the value in hexadecimal.
fn put_dump(value: &Value, out: &mut Vec<u8>) -> Result<(), WriteError>
    ensures { MayShow (dump_piece value.now) out.old.items out.new.items result }
{
    let alloc = *out.allocator();
    let mut dump = Vec::new(alloc);
    write_dump(value, &mut dump)?;
    put_hex(dump.as_slice(), out)?;
    Ok(())
}

/// Appends `#` and the bytes in hexadecimal.
fn put_hex(bytes: &[u8], out: &mut Vec<u8>) -> Result<(), AllocError>
    ensures { Appends (35 ∷ encode_lower bytes.now) out.old.items out.new.items result }
{
    let digits = hex::encode(*out.allocator(), bytes)?;
    out.extend_from_slice(b"#")?;
    out.extend_from_slice(digits.as_bytes())
}
