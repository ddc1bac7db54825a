//! The texts of values that are neither lists nor written as their dump.

ghost use Rattle.std.specs.Prelude.{◌≡◌, ◌<◌, ◌&&◌, Some, codes, bytes_eq};
ghost use Rattle.std.specs.Char.{digit_char};
ghost use Rattle.std.specs.Fmt.{signed_decimal};
ghost use Rattle.std.specs.List.{list_all};
ghost use Rattle.drb_tree.specs.declared.Text.{Text};
ghost use Rattle.drb_value.specs.View.{layer};
ghost use Rattle.drb_text.specs.Bytes.{is_uri};
ghost use Rattle.drb_text.specs.Names.{symbol_name, class_name, is_whole};
ghost use Rattle.drb_text.specs.Puts.{Appends, MayPut};
ghost use Rattle.drb_text.specs.Shown.{escaped, each_escaped, string_text, symbol_text, class_text, range_of, range_fields, range_text, id_text, number_text, is_utf8_code, angled, remote_text, plain_text};

use crate::names::{read_class, read_symbol};
use crate::pieces::{is_plain, is_uri};
use drb_value::{Code, Fields, Name, Node, RefId, Remote, Text, Value};
use itoa::Buffer;
use std::alloc::AllocError;

/// Appends the text of the value where it has one of its own; answers whether it has.
pub(crate) fn put_plain(node: &Node, out: &mut Vec<u8>) -> Result<bool, AllocError>
    ensures { MayPut (plain_text (layer node.now)) out.old.items out.new.items result }
{
    match node {
        Node::Nil => put_word(b"nil", out),
        Node::Bool(true) => put_word(b"true", out),
        Node::Bool(false) => put_word(b"false", out),
        Node::Int(number) => put_number(*number, out),
        Node::Sym(name) => put_symbol(name, out),
        Node::Text(text) => put_text(text, out),
        Node::Class(name) => put_class(name, out),
        Node::Object(object) => put_range(object.get(), out),
        Node::Remote(remote) => put_remote(remote.get(), out),
        _ => Ok(false),
    }
}

/// Appends a text that there is.
fn put_word(word: &[u8], out: &mut Vec<u8>) -> Result<bool, AllocError>
    ensures { MayPut (Some word.now) out.old.items out.new.items result }
{
    out.extend_from_slice(word)?;
    Ok(true)
}

fn put_number(number: i128, out: &mut Vec<u8>) -> Result<bool, AllocError>
    ensures { MayPut (Some (signed_decimal number)) out.old.items out.new.items result }
{
    put_int(number, out)?;
    Ok(true)
}

fn put_int(number: i128, out: &mut Vec<u8>) -> Result<(), AllocError>
    ensures { Appends (signed_decimal number) out.old.items out.new.items result }
{
    let mut buffer = Buffer::new();
    out.extend_from_slice(buffer.format(number).as_bytes())
}

fn put_symbol(name: &Name, out: &mut Vec<u8>) -> Result<bool, AllocError>
    ensures { MayPut (symbol_text name.now) out.old.items out.new.items result }
{
    let bytes = name.as_slice();
    if !is_symbol(bytes) {
        return Ok(false);
    }
    out.extend_from_slice(b":")?;
    put_word(bytes, out)
}

fn is_symbol(bytes: &[u8]) -> bool
    ensures { result ≡ is_whole (symbol_name bytes.now) }
{
    match read_symbol(bytes) {
        Ok((_, rest)) => rest.is_empty(),
        Err(_) => false,
    }
}

fn put_class(name: &Name, out: &mut Vec<u8>) -> Result<bool, AllocError>
    ensures { MayPut (class_text name.now) out.old.items out.new.items result }
{
    let bytes = name.as_slice();
    if !is_class(bytes) {
        return Ok(false);
    }
    put_word(bytes, out)
}

fn is_class(bytes: &[u8]) -> bool
    ensures { result ≡ is_whole (class_name bytes.now) }
{
    match read_class(bytes) {
        Ok((_, rest)) => rest.is_empty(),
        Err(_) => false,
    }
}

fn put_text(text: &Text, out: &mut Vec<u8>) -> Result<bool, AllocError>
    ensures { MayPut (string_text text.now.bytes text.now.code) out.old.items out.new.items result }
{
    if !is_utf8_code(text.code) {
        return Ok(false);
    }
    out.extend_from_slice(b"\"")?;
    put_escaped(text.bytes.as_slice(), out)?;
    put_word(b"\"", out)
}

fn is_utf8_code(code: Code) -> bool
    ensures { result ≡ is_utf8_code code }
{
    match code {
        Code::Utf8 => true,
        _ => false,
    }
}

fn put_escaped(bytes: &[u8], out: &mut Vec<u8>) -> Result<(), AllocError>
    ensures { Appends (each_escaped bytes.now) out.old.items out.new.items result }
{
    for byte in bytes {
        put_byte(*byte, out)?;
    }
    Ok(())
}

/// Appends a byte of a text: itself, behind `\`, or as `\x` and two digits.
fn put_byte(byte: u8, out: &mut Vec<u8>) -> Result<(), AllocError>
    ensures { Appends (escaped byte) out.old.items out.new.items result }
{
    if byte == b'"' || byte == b'\\' {
        out.extend_from_slice(&[b'\\', byte])
    } else if is_plain(byte) {
        out.extend_from_slice(&[byte])
    } else {
        out.extend_from_slice(&[b'\\', b'x', hex_digit(byte / 16), hex_digit(byte % 16)])
    }
}

fn hex_digit(worth: u8) -> u8
    requires { worth < 16 }
    ensures { result ≡ digit_char worth }
{
    if worth < 10 { b'0' + worth } else { 87 + worth }
}

/// Appends a range, where the object is one of integers.
fn put_range(object: &Fields, out: &mut Vec<u8>) -> Result<bool, AllocError>
    ensures { MayPut (range_text object.now.class object.now.fields)
        out.old.items out.new.items result }
{
    if object.class.as_slice() != b"Range".as_slice() {
        return Ok(false);
    }
    put_fields(object.fields.as_slice(), out)
}

#[tactic(auto, using(crate::proofs::Fields::fields_unnamed))]
fn put_fields(fields: &[(Name, Value)], out: &mut Vec<u8>) -> Result<bool, AllocError>
    ensures { MayPut (range_fields fields.now) out.old.items out.new.items result }
{
    let [excl, begin, end] = fields else {
        return Ok(false);
    };
    if !are_range_names(excl.0.as_slice(), begin.0.as_slice(), end.0.as_slice()) {
        return Ok(false);
    }
    put_ends(&excl.1.node, &begin.1.node, &end.1.node, out)
}

fn are_range_names(first: &[u8], second: &[u8], third: &[u8]) -> bool
    ensures { result ≡ (bytes_eq first.now (codes "excl")
        && (bytes_eq second.now (codes "begin") && bytes_eq third.now (codes "end"))) }
{
    first == b"excl".as_slice() && second == b"begin".as_slice() && third == b"end".as_slice()
}

fn put_ends(excl: &Node, begin: &Node, end: &Node, out: &mut Vec<u8>) -> Result<bool, AllocError>
    ensures { MayPut (range_of (layer excl.now) (layer begin.now) (layer end.now))
        out.old.items out.new.items result }
{
    let (Node::Bool(excl), Node::Int(low), Node::Int(high)) = (excl, begin, end) else {
        return Ok(false);
    };
    put_int(*low, out)?;
    out.extend_from_slice(if *excl { b"..." } else { b".." })?;
    put_number(*high, out)
}

/// Appends a reference, where its uri is a text of the bytes that it may have and its id is no text.
fn put_remote(remote: &Remote, out: &mut Vec<u8>) -> Result<bool, AllocError>
    ensures { MayPut (remote_text remote.now) out.old.items out.new.items result }
{
    let uri = remote.uri.bytes.as_slice();
    if !is_utf8_code(remote.uri.code) || !is_uri_text(uri) {
        return Ok(false);
    }
    match &remote.id {
        RefId::Front => put_angled(uri, None, out),
        RefId::Number(number) => put_angled(uri, Some(*number), out),
        RefId::Text(_) => Ok(false),
    }
}

fn is_uri_text(bytes: &[u8]) -> bool
    ensures { result ≡ list_all is_uri bytes.now }
{
    bytes.iter().all(|b| is_uri(*b))
}

/// Appends a reference of that uri to the object of that number, or to the front.
fn put_angled(uri: &[u8], number: Option<i128>, out: &mut Vec<u8>) -> Result<bool, AllocError>
    ensures { MayPut (angled uri.now (Some (number_text number)))
        out.old.items out.new.items result }
{
    out.extend_from_slice(b"<")?;
    out.extend_from_slice(uri)?;
    out.extend_from_slice(b" ")?;
    match number {
        None => out.extend_from_slice(b"nil")?,
        Some(number) => put_int(number, out)?,
    }
    put_word(b">", out)
}
