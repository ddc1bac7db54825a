//! The texts of requests and replies.

ghost use Rattle.std.specs.Prelude.{◌≡◌, ◌++◌, ◌∷◌, [], ◌<◌, ◌≤◌, length, drop, IfOk, OnOk, OnErr, Err, IsTrue, pos};
ghost use Rattle.drb_tree.specs.Same.{all_ascii};
ghost use Rattle.drb_tree.specs.Kept.{id_tree};
ghost use Rattle.drb_tree.specs.declared.Code.TheVariants.{Ascii};
ghost use Rattle.marshal_grammar.specs.Trees.{bool, int, text};
ghost use Rattle.byteorder.specs.Endian.{big_bytes};
ghost use Rattle.marshal_grammar.specs.Spelled.{spelled};
ghost use Rattle.marshal_write.specs.Limits.{max_dump};
ghost use Rattle.drb_packet.specs.Texts.{reply_text, ask_text, ask_values, AllShort, SomeLong, Puts};

use byteorder::{BigEndian, ByteOrder};
use drb_value::{Code, RefId, Text, Value};
use marshal_write::{WriteError, write_dump};
use std::alloc::{AllocError, Global};

/// Puts the size of the body that stands at the end before it, in place of the four bytes there.
fn put_size(out: &mut [u8], size: u32)
    requires { 4 ≤ length out.old }
    ensures { out.new ≡ big_bytes 4 size ++ drop 4 out.old }
{
    BigEndian::write_u32(out, size);
}

/// Appends the packet of this value. At an error the bytes that were there stand in front.
fn put_packet(v: &Value, out: &mut Vec<u8>) -> Result<(), WriteError>
    ensures { Puts (v.now ∷ []) result out.old.items out.new.items }
{
    let start = out.len();
    out.extend_from_slice(&[0; 4])?;
    write_dump(v, out)?;
    let size = out.len() - start - 4;
    put_size(&mut out[start..], size as u32);
    Ok(())
}

/// Appends the packets of these values.
fn put_packets(values: &[Value], out: &mut Vec<u8>) -> Result<(), WriteError>
    ensures { Puts values.now result out.old.items out.new.items }
{
    for value in values {
        put_packet(value, out)?;
    }
    Ok(())
}

/// The value of whom a request calls.
fn reference_of(alloc: Global, to: &RefId) -> Result<Value, AllocError>
    ensures { IfOk result (λ v. v ≡ id_tree to.now) }
{
    Ok(match to {
        RefId::Front => Value::nil(),
        RefId::Number(number) => Value::int(*number),
        RefId::Text(text) => Value::text(text.copy(alloc)?),
    })
}

/// Appends the packet of whom a request calls.
fn put_reference(to: &RefId, out: &mut Vec<u8>) -> Result<(), WriteError>
    ensures { Puts (id_tree to.now ∷ []) result out.old.items out.new.items }
{
    let alloc = *out.allocator();
    let reference = reference_of(alloc, to)?;
    put_packet(&reference, out)
}

/// Appends the packet of a method's name.
fn put_name(name: &[u8], out: &mut Vec<u8>) -> Result<(), WriteError>
    ensures { Puts (text name.now Ascii ∷ []) result out.old.items out.new.items }
{
    let alloc = *out.allocator();
    let name = Value::text(Text::of(alloc, name, Code::Ascii)?);
    put_packet(&name, out)
}

/// Appends the packets that stand before the arguments.
fn put_call(to: &RefId, name: &[u8], count: usize, out: &mut Vec<u8>) -> Result<(), WriteError>
    ensures { Puts (id_tree to.now ∷ text name.now Ascii ∷ int (pos count) ∷ []) result
        out.old.items out.new.items }
{
    put_reference(to, out)?;
    put_name(name, out)?;
    put_packet(&Value::int(count as i128), out)
}

/// Appends all the packets of a request.
fn put_request(to: &RefId, name: &[u8], args: &[Value], out: &mut Vec<u8>) -> Result<(), WriteError>
    ensures { Puts (ask_values to.now name.now args.now) result out.old.items out.new.items }
{
    put_call(to, name, args.len(), out)?;
    put_packets(args, out)?;
    put_packet(&Value::nil(), out)
}

/// Appends the text of a request: its method's name in US-ASCII, and no block.
///
/// The name is ASCII, which `drb_tree`'s `all_ascii` tests, and there are at most 256 arguments.
/// Errors: `TooLong` exactly where the dump of one of its packets has more than 2^30 - 1 bytes; `Memory` at any time. At
/// an error `out` has the bytes that it had; only its capacity may have grown.
/// Source: Ruby's drb.rb, DRbMessage#send_request; docs/WIRE.md, Requests.
#[tactic(auto, using(crate::proofs::Texts::cut_back))]
pub fn write_request(
    to: &RefId,
    name: &[u8],
    args: &[Value],
    out: &mut Vec<u8>,
) -> Result<(), WriteError>
    requires ascii { IsTrue (all_ascii name.now) }
    requires few { length args.now ≤ 256 }
    ensures written { OnOk result
        (out.new.items ≡ out.old.items ++ ask_text to.now name.now args.now) }
    ensures within { OnOk result (AllShort (ask_values to.now name.now args.now)) }
    ensures too_long { result ≡ Err WriteError.TooLong →
        SomeLong (ask_values to.now name.now args.now) }
    ensures unchanged { OnErr result (out.new.items ≡ out.old.items) }
{
    let start = out.len();
    match put_request(to, name, args, out) {
        Ok(()) => Ok(()),
        Err(error) => {
            out.truncate(start);
            Err(error)
        }
    }
}

/// Appends both packets of a reply.
fn put_reply(ok: bool, v: &Value, out: &mut Vec<u8>) -> Result<(), WriteError>
    ensures { Puts (bool ok ∷ v.now ∷ []) result out.old.items out.new.items }
{
    put_packet(&Value::boolean(ok), out)?;
    put_packet(v, out)
}

/// Appends the text of a reply: whether the call succeeded, and its result.
///
/// Errors: `TooLong` exactly where the dump of the result has more than 2^30 - 1 bytes; `Memory` at any time. At an error
/// `out` has the bytes that it had; only its capacity may have grown.
/// Source: Ruby's drb.rb, DRbMessage#send_reply; docs/WIRE.md, Replies.
#[tactic(auto, using(crate::proofs::Texts::cut_back))]
pub fn write_reply(ok: bool, v: &Value, out: &mut Vec<u8>) -> Result<(), WriteError>
    ensures written { OnOk result (out.new.items ≡ out.old.items ++ reply_text ok v.now) }
    ensures within { OnOk result (length (spelled v.now) ≤ max_dump) }
    ensures too_long { result ≡ Err WriteError.TooLong → max_dump < length (spelled v.now) }
    ensures unchanged { OnErr result (out.new.items ≡ out.old.items) }
{
    let start = out.len();
    match put_reply(ok, v, out) {
        Ok(()) => Ok(()),
        Err(error) => {
            out.truncate(start);
            Err(error)
        }
    }
}
