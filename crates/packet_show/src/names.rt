//! A method's name, as it is shown.

ghost use Rattle.std.specs.Prelude.{◌≡◌, ◌++◌, ◌<◌, OnOk, IfOk};
ghost use Rattle.packet_show.specs.Names.{digit_of, escaped_byte, escaped};

use std::alloc::{AllocError, Global};

/// A hexadecimal digit.
fn digit(n: u8) -> u8
    requires { n < 16 }
    ensures { result ≡ digit_of n }
{
    if n < 10 { b'0' + n } else { b'a' + (n - 10) }
}

/// Appends a byte as it is shown.
fn push_escaped(out: &mut Vec<u8>, byte: u8) -> Result<(), AllocError>
    ensures { OnOk result (out.new.items ≡ out.old.items ++ escaped_byte byte) }
{
    if byte < 32 || byte == 127 {
        out.extend_from_slice(&[b'\\', b'x', digit(byte / 16), digit(byte % 16)])
    } else if byte == b'\\' {
        out.extend_from_slice(b"\\\\")
    } else {
        out.extend_from_slice(&[byte])
    }
}

/// The name's bytes, with its control bytes and `\` escaped: so it takes one line, and no two names look alike.
///
/// Source: docs/WIRE.md, What stands first.
pub fn escaped(alloc: Global, name: &[u8]) -> Result<Vec<u8>, AllocError>
    ensures { IfOk result (λ out. out.items ≡ escaped name.now) }
{
    let mut out = Vec::new(alloc);
    for byte in name {
        push_escaped(&mut out, *byte)?;
    }
    Ok(out)
}
