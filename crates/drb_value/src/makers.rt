ghost use Rattle.std.specs.Prelude.{◌≡◌, IfOk};
ghost use Rattle.drb_tree.specs.Kept.{remote_class};
ghost use Rattle.drb_tree.specs.Trees.{nil_tree, bool_tree, int_tree, sym_tree, text_tree, list_tree, hash_tree, class_tree, module_tree, object_tree, struct_tree, dumped_tree, wrapped_tree, remote_tree};
ghost use Rattle.drb_value.specs.View.{view_of};

use crate::{
    Boxed, Dumped, FieldList, Fields, Items, Name, Node, Pairs, Remote, Text, Value, Wrapped,
};
use std::alloc::{AllocError, Global};

impl Value {
    /// The value of this node.
    pub fn of(node: Node) -> Value
        ensures { result ≡ view_of node }
    {
        Value { node }
    }

    /// Ruby's nil.
    pub fn nil() -> Value
        ensures { result ≡ nil_tree }
    {
        Value { node: Node::Nil }
    }

    /// Ruby's true or false.
    pub fn boolean(truth: bool) -> Value
        ensures { result ≡ bool_tree truth }
    {
        Value {
            node: Node::Bool(truth),
        }
    }

    /// An integer.
    pub fn int(number: i128) -> Value
        ensures { result ≡ int_tree number }
    {
        Value {
            node: Node::Int(number),
        }
    }

    /// A symbol.
    pub fn sym(name: Name) -> Value
        ensures { result ≡ sym_tree name }
    {
        Value {
            node: Node::Sym(name),
        }
    }

    /// A text.
    pub fn text(text: Text) -> Value
        ensures { result ≡ text_tree text }
    {
        Value {
            node: Node::Text(text),
        }
    }

    /// A list of values, Ruby's Array.
    pub fn list(items: Items<Value>) -> Value
        ensures { result ≡ list_tree items }
    {
        Value {
            node: Node::List(items),
        }
    }

    /// A hash.
    pub fn hash(pairs: Pairs) -> Value
        ensures { result ≡ hash_tree pairs.0 pairs.1 }
    {
        Value {
            node: Node::Hash(pairs),
        }
    }

    /// A class, by its name.
    pub fn class(name: Name) -> Value
        ensures { result ≡ class_tree name }
    {
        Value {
            node: Node::Class(name),
        }
    }

    /// A module, by its name.
    pub fn module(name: Name) -> Value
        ensures { result ≡ module_tree name }
    {
        Value {
            node: Node::Module(name),
        }
    }

    /// An object of this class with these fields.
    ///
    /// Errors: only want of memory.
    pub fn object(alloc: Global, class: Name, fields: FieldList) -> Result<Value, AllocError>
        ensures { IfOk result (λ value. value ≡ object_tree class fields) }
    {
        let object = Boxed::new(alloc, Fields { class, fields })?;
        Ok(Value {
            node: Node::Object(object),
        })
    }

    /// A struct of this class with these members.
    ///
    /// Errors: only want of memory.
    pub fn structure(alloc: Global, class: Name, fields: FieldList) -> Result<Value, AllocError>
        ensures { IfOk result (λ value. value ≡ struct_tree class fields) }
    {
        let object = Boxed::new(alloc, Fields { class, fields })?;
        Ok(Value {
            node: Node::Struct(object),
        })
    }

    /// What its class dumped as bytes.
    ///
    /// Errors: only want of memory.
    pub fn dumped(alloc: Global, dumped: Dumped) -> Result<Value, AllocError>
        ensures { IfOk result (λ value. value ≡ dumped_tree dumped.0 dumped.1 dumped.2) }
    {
        let dumped = Boxed::new(alloc, dumped)?;
        Ok(Value {
            node: Node::Dumped(dumped),
        })
    }

    /// What its class dumped as another value.
    ///
    /// Errors: only want of memory.
    pub fn wrapped(alloc: Global, class: Name, inner: Value) -> Result<Value, AllocError>
        ensures { IfOk result (λ value. value ≡ wrapped_tree class inner) }
    {
        let inner = Boxed::new(alloc, inner)?;
        Ok(Value {
            node: Node::Wrapped(Wrapped { class, inner }),
        })
    }

    /// An object that lives elsewhere.
    ///
    /// Errors: only want of memory.
    pub fn remote(alloc: Global, remote: Remote) -> Result<Value, AllocError>
        ensures { IfOk result (λ value. value ≡ remote_tree remote) }
    {
        let remote = Boxed::new(alloc, remote)?;
        Ok(Value {
            node: Node::Remote(remote),
        })
    }
}

impl Dumped {
    /// The class, the bytes that it dumped and the variables, kept as they are.
    ///
    /// The class is not `DRb::DRbObject`, as `Name::is_remote_class` tells: such a dump is a `Remote`.
    /// Source: docs/MARSHAL.md, Values.
    pub fn of(class: Name, bytes: Items<u8>, vars: FieldList) -> Dumped
        requires { class ≡ remote_class → ⊥ }
        ensures { result ≡ (class, bytes, vars) }
    {
        Dumped { class, bytes, vars }
    }

    /// The class, which is not `DRb::DRbObject`.
    pub fn class(&self) -> &Name
        ensures class { result.now ≡ self.now.0 }
        ensures foreign { self.now.0 ≡ remote_class → ⊥ }
    {
        &self.class
    }

    /// The bytes that the class dumped.
    pub fn bytes(&self) -> &[u8]
        ensures { result.now ≡ self.now.1 }
    {
        self.bytes.as_slice()
    }

    /// The variables, in their order.
    pub fn vars(&self) -> &FieldList
        ensures { result.now ≡ self.now.2 }
    {
        &self.vars
    }
}
