//! The walk over a value.

ghost use Rattle.std.specs.Prelude.{◌≡◌, [], ◌∷◌, length, map, option_map, Option};
ghost use Rattle.drb_tree.specs.declared.Tree.{Tree};
ghost use Rattle.drb_tree.specs.declared.Tree.TheFolds.{map-Tree};
ghost use Rattle.drb_value.specs.View.{layer};
ghost use Rattle.marshal_grammar.specs.Spelled.{Writing, these, ◌then◌, long_from, string_bytes_of, symbol_bytes, each_value, each_pair, hash_bytes, fields_bytes, dumped_bytes, writing, writing_step};
ghost use Rattle.marshal_write.specs.Written.{Writes, default_bytes, hash_mark};

use crate::WriteError;
use crate::writer::Writer;
use drb_value::{Dumped, FieldList, Fields, Node, Pairs, Value, Wrapped};
use sqlite_items::Boxed;

impl Writer {
    /// Writes the version bytes and a value.
    pub fn put_dump(&mut self, value: &Value) -> Result<(), WriteError>
        ensures { Writes (these (4 ∷ 8 ∷ []) then writing value.now) self.old self.new result }
    {
        self.put(&[4, 8])?;
        self.put_value(value)
    }

    /// Writes a value.
    #[cycle(values)]
    fn put_value(&mut self, value: &Value) -> Result<(), WriteError>
        ensures { Writes (writing value.now) self.old self.new result }
    {
        self.put_node(&value.node)
    }

    /// Writes a value of that form.
    #[cycle(values)]
    fn put_node(&mut self, node: &Node) -> Result<(), WriteError>
        ensures { Writes
            (writing_step (map-Tree Tree Writing writing (layer node.now)))
            self.old self.new result }
    {
        match node {
            Node::Nil => self.put(b"0"),
            Node::Bool(truth) => self.put(if *truth { b"T" } else { b"F" }),
            Node::Int(number) => self.put_int(*number),
            Node::Sym(name) => self.put_symbol(name.as_slice()),
            Node::Text(text) => self.put_text(text),
            Node::List(items) => self.put_list(items.as_slice()),
            Node::Hash(pairs) => self.put_hash(pairs),
            Node::Class(name) => self.put_marked(b"c", name.as_slice()),
            Node::Module(name) => self.put_marked(b"m", name.as_slice()),
            Node::Object(object) => self.put_object(b'o', object.get()),
            Node::Struct(object) => self.put_object(b'S', object.get()),
            Node::Dumped(dumped) => self.put_dumped(dumped.get()),
            Node::Wrapped(wrapped) => self.put_wrapped(wrapped),
            Node::Remote(remote) => self.put_remote(remote.get()),
        }
    }

    /// Writes a list of these items.
    #[cycle(values)]
    fn put_list(&mut self, items: &[Value]) -> Result<(), WriteError>
        ensures { Writes
            (these (91 ∷ long_from (length (map writing items.now)))
            then each_value (map writing items.now))
            self.old self.new result }
    {
        self.put(b"[")?;
        self.put_count(items.len())?;
        for item in items {
            self.put_value(item)?;
        }
        Ok(())
    }

    /// Writes a hash: without a default as `{`, with one as `}`.
    #[cycle(values)]
    fn put_hash(&mut self, pairs: &Pairs) -> Result<(), WriteError>
        ensures { Writes
            (hash_bytes (map (λ p. (writing p.0, writing p.1)) pairs.now.0)
            (option_map writing pairs.now.1))
            self.old self.new result }
    {
        self.put(&[hash_mark(&pairs.default)])?;
        self.put_count(pairs.len())?;
        self.put_pairs(pairs.as_slice())?;
        self.put_default(&pairs.default)
    }

    /// Writes keys and values.
    #[cycle(values)]
    fn put_pairs(&mut self, pairs: &[(Value, Value)]) -> Result<(), WriteError>
        ensures { Writes
            (each_pair (map (λ p. (writing p.0, writing p.1)) pairs.now))
            self.old self.new result }
    {
        for pair in pairs {
            self.put_value(&pair.0)?;
            self.put_value(&pair.1)?;
        }
        Ok(())
    }

    /// Writes the default, where there is one.
    #[cycle(values)]
    fn put_default(&mut self, default: &Option<Boxed<Value>>) -> Result<(), WriteError>
        ensures { Writes (default_bytes (option_map writing default.now)) self.old self.new result }
    {
        match default {
            None => Ok(()),
            Some(value) => self.put_value(value.get()),
        }
    }

    /// Writes an object or a struct: its mark, its class and its fields.
    #[cycle(values)]
    fn put_object(&mut self, mark: u8, object: &Fields) -> Result<(), WriteError>
        ensures { Writes
            (these (mark ∷ []) then symbol_bytes object.now.class
            then fields_bytes (map (λ f. (f.0, writing f.1)) object.now.fields))
            self.old self.new result }
    {
        self.put(&[mark])?;
        self.put_symbol(object.class.as_slice())?;
        self.put_fields(&object.fields)
    }

    /// Writes a count and so many fields.
    #[cycle(values)]
    fn put_fields(&mut self, fields: &FieldList) -> Result<(), WriteError>
        ensures { Writes
            (fields_bytes (map (λ f. (f.0, writing f.1)) fields.now))
            self.old self.new result }
    {
        self.put_count(fields.len())?;
        for field in fields.as_slice() {
            self.put_symbol(field.0.as_slice())?;
            self.put_value(&field.1)?;
        }
        Ok(())
    }

    /// Writes a value that its class dumped as bytes: without variables as `u`, with some as `Iu`.
    #[cycle(values)]
    fn put_dumped(&mut self, dumped: &Dumped) -> Result<(), WriteError>
        ensures { Writes
            (dumped_bytes dumped.now.0 dumped.now.1 (map (λ f. (f.0, writing f.1)) dumped.now.2))
            self.old self.new result }
    {
        if dumped.vars().is_empty() {
            self.put_dumped_as(b"u", dumped)
        } else {
            self.put_dumped_as(b"Iu", dumped)?;
            self.put_fields(dumped.vars())
        }
    }

    /// Writes the mark, the class and the bytes of a value that its class dumped as bytes.
    fn put_dumped_as(&mut self, mark: &[u8], dumped: &Dumped) -> Result<(), WriteError>
        ensures { Writes
            (these mark.now then symbol_bytes dumped.now.0
            then these (string_bytes_of dumped.now.1))
            self.old self.new result }
    {
        self.put(mark)?;
        self.put_symbol(dumped.class().as_slice())?;
        self.put_string(dumped.bytes())
    }

    /// Writes a value that its class dumped as another value.
    #[cycle(values)]
    fn put_wrapped(&mut self, wrapped: &Wrapped) -> Result<(), WriteError>
        ensures { Writes
            (these (85 ∷ []) then symbol_bytes wrapped.now.class then writing wrapped.now.inner)
            self.old self.new result }
    {
        self.put(b"U")?;
        self.put_symbol(wrapped.class.as_slice())?;
        self.put_value(wrapped.inner.get())
    }
}

/// The mark of a hash with that default.
fn hash_mark(default: &Option<Boxed<Value>>) -> u8
    ensures { result ≡ hash_mark (option_map writing default.now) }
{
    match default {
        None => b'{',
        Some(_) => b'}',
    }
}
