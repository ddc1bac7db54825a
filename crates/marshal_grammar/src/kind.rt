//! What the first byte of a value says.

ghost use Rattle.std.specs.Prelude.{◌≡◌};
ghost use Rattle.marshal_grammar.specs.Kinds.{kind_of};

/// What the first byte of a value says: one kind for each type byte of the table in docs/MARSHAL.md, Values.
#[derive(Clone, Copy, Debug, PartialEq, Eq)]
pub enum Kind {
    Nil,
    True,
    False,
    Int,
    Big,
    Symbol,
    SymbolLink,
    /// `I`: what follows has variables.
    Marked,
    Text,
    List,
    Hash,
    HashWithDefault,
    Class,
    Module,
    Object,
    Struct,
    Dumped,
    Wrapped,
    Link,
}

/// The kind that a type byte stands for; `None` where the byte is no type byte.
///
/// Source: Ruby's marshal.c, r_object_for; docs/MARSHAL.md, Values.
#[inline(always)]
pub fn kind_of(byte: u8) -> Option<Kind>
    ensures { result ≡ kind_of byte }
{
    match byte {
        b'0' => Some(Kind::Nil),
        b'T' => Some(Kind::True),
        b'F' => Some(Kind::False),
        b'i' => Some(Kind::Int),
        b'l' => Some(Kind::Big),
        b':' => Some(Kind::Symbol),
        b';' => Some(Kind::SymbolLink),
        b'I' => Some(Kind::Marked),
        b'"' => Some(Kind::Text),
        b'[' => Some(Kind::List),
        b'{' => Some(Kind::Hash),
        b'}' => Some(Kind::HashWithDefault),
        b'c' => Some(Kind::Class),
        b'm' => Some(Kind::Module),
        b'o' => Some(Kind::Object),
        b'S' => Some(Kind::Struct),
        b'u' => Some(Kind::Dumped),
        b'U' => Some(Kind::Wrapped),
        b'@' => Some(Kind::Link),
        _ => None,
    }
}
