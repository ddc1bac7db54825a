//! Symbols, texts and remote objects.

ghost use Rattle.std.specs.Prelude.{◌≡◌, [], ◌∷◌, ◌++◌, ◌<◌, ◌≤◌, length, position, bytes_eq, None, IfOk, Err, IsTrue, ◌↔◌};
ghost use Rattle.drb_tree.specs.Same.{all_ascii};
ghost use Rattle.drb_tree.specs.Kept.{remote_class};
ghost use Rattle.marshal_grammar.specs.Spelled.{these, ◌then◌, new_symbol, long_from, string_bytes_of, ascii_symbol, utf8_symbol, symbol_bytes, encoding_bytes, text_bytes, id_bytes_of, remote_bytes};
ghost use Rattle.marshal_write.specs.Written.{Writes};

use crate::WriteError;
use crate::writer::Writer;
use drb_tree::{Code, RefId, Remote, Text, all_ascii};
use std::alloc::Global;

/// The class of remote objects.
const REMOTE_CLASS: &[u8] = b"DRb::DRbObject";

impl Writer {
    /// Writes a symbol: its first occurrence whole, a later one as a link.
    pub fn put_symbol(&mut self, name: &[u8]) -> Result<(), WriteError>
        ensures { Writes (symbol_bytes name.now) self.old self.new result }
    {
        if all_ascii(name) {
            self.put_ascii_symbol(name)
        } else {
            self.put_utf8_symbol(name)
        }
    }

    /// Writes a symbol of ASCII.
    fn put_ascii_symbol(&mut self, name: &[u8]) -> Result<(), WriteError>
        ensures { Writes (ascii_symbol name.now) self.old self.new result }
    {
        if let Some(number) = self.symbols.number_of(name) {
            return self.put_link(number);
        }
        self.put_marked(b":", name)?;
        self.add_symbol(name)
    }

    /// Writes a symbol that is not ASCII: under `I`, with `E` true.
    fn put_utf8_symbol(&mut self, name: &[u8]) -> Result<(), WriteError>
        ensures { Writes (utf8_symbol name.now) self.old self.new result }
    {
        if let Some(known) = self.symbols.number_of(name) {
            return self.put_link(known);
        }
        self.put_marked(b"I:", name)?;
        self.add_symbol(name)?;
        self.put_encoding(b'T')
    }

    /// Writes a link to the symbol of that number.
    fn put_link(&mut self, number: usize) -> Result<(), WriteError>
        ensures { Writes (these (59 ∷ long_from number)) self.old self.new result }
    {
        self.put(b";")?;
        self.put_count(number)
    }

    /// Gives a symbol that has not been written the next number.
    fn add_symbol(&mut self, name: &[u8]) -> Result<(), WriteError>
        requires { position (λ t. bytes_eq t name.now) self.old.symbols ≡ None }
        ensures { Writes (new_symbol name.now) self.old self.new result }
    {
        self.symbols.add(self.alloc, name)?;
        Ok(())
    }

    /// Writes one encoding variable: the symbol `E` and this byte.
    fn put_encoding(&mut self, byte: u8) -> Result<(), WriteError>
        ensures { Writes (encoding_bytes byte) self.old self.new result }
    {
        self.put(&[6])?;
        self.put_ascii_symbol(b"E")?;
        self.put(&[byte])
    }

    /// Writes a text: binary bare, US-ASCII with `E` false, UTF-8 with `E` true.
    pub fn put_text(&mut self, text: &Text) -> Result<(), WriteError>
        ensures { Writes (text_bytes text.now.bytes text.now.code) self.old self.new result }
    {
        match text.code {
            Code::Binary => self.put_marked(b"\"", text.bytes.as_slice()),
            Code::Ascii => self.put_encoded(text.bytes.as_slice(), b'F'),
            Code::Utf8 => self.put_encoded(text.bytes.as_slice(), b'T'),
        }
    }

    /// Writes a text with one encoding variable of that value.
    fn put_encoded(&mut self, bytes: &[u8], value: u8) -> Result<(), WriteError>
        ensures { Writes
            (these (73 ∷ 34 ∷ string_bytes_of bytes.now) then encoding_bytes value)
            self.old self.new result }
    {
        self.put_marked(b"I\"", bytes)?;
        self.put_encoding(value)
    }

    /// Writes a mark, a length and so many bytes.
    pub fn put_marked(&mut self, mark: &[u8], bytes: &[u8]) -> Result<(), WriteError>
        ensures { Writes (these (mark.now ++ string_bytes_of bytes.now)) self.old self.new result }
    {
        self.put(mark)?;
        self.put_string(bytes)
    }

    /// Writes a remote object: `u`, its class, and as bytes a dump of its own, of its uri and its id.
    pub fn put_remote(&mut self, remote: &Remote) -> Result<(), WriteError>
        ensures { Writes
            (these (117 ∷ []) then symbol_bytes remote_class
            then these (string_bytes_of (remote_bytes remote.now)))
            self.old self.new result }
    {
        self.put(b"u")?;
        self.put_symbol(REMOTE_CLASS)?;
        let room = self.limit.saturating_sub(self.bytes.len());
        let bytes = remote_dump(self.alloc, remote, room)?;
        self.put_string(bytes.as_slice())
    }

    /// Writes the dump that a remote object makes of itself.
    fn put_remote_list(&mut self, remote: &Remote) -> Result<(), WriteError>
        ensures { Writes
            (these (4 ∷ 8 ∷ 91 ∷ 7 ∷ []) then text_bytes remote.now.uri.bytes remote.now.uri.code
            then id_bytes_of remote.now.id)
            self.old self.new result }
    {
        self.put(b"\x04\x08[\x07")?;
        self.put_text(&remote.uri)?;
        self.put_id(&remote.id)
    }

    /// Writes the id of a remote object, as a value.
    fn put_id(&mut self, id: &RefId) -> Result<(), WriteError>
        ensures { Writes (id_bytes_of id.now) self.old self.new result }
    {
        match id {
            RefId::Front => self.put(b"0"),
            RefId::Number(number) => self.put_int(*number),
            RefId::Text(text) => self.put_text(text),
        }
    }
}

/// The dump that a remote object makes of itself: the list of its uri and its id, with symbols of its own.
///
/// Errors: `TooLong` only where it has more than `limit` bytes; `Memory`.
fn remote_dump(alloc: Global, remote: &Remote, limit: usize) -> Result<Vec<u8>, WriteError>
    ensures bytes { IfOk result (λ v. v.items ≡ remote_bytes remote.now) }
    ensures too_long { result ≡ Err WriteError.TooLong → limit < length (remote_bytes remote.now) }
{
    let mut inner = Writer::over(alloc, Vec::new(alloc), limit);
    inner.put_remote_list(remote)?;
    Ok(inner.into_bytes())
}
