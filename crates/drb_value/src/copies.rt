ghost use Rattle.std.specs.Prelude.{◌≡◌, IfOk};

use crate::{Boxed, Dumped, FieldList, Fields, Items, Name, Node, Pairs, Value, Wrapped};
use std::alloc::{AllocError, Global};

impl Value {
    /// An equal value, which shares nothing with this one.
    ///
    /// Errors: only want of memory.
    #[cycle(copy)]
    pub fn copy(&self, alloc: Global) -> Result<Value, AllocError>
        ensures { IfOk result (λ value. value ≡ self.now) }
    {
        Ok(Value {
            node: self.node.copy(alloc)?,
        })
    }
}

impl Node {
    /// An equal node.
    ///
    /// Errors: only want of memory.
    #[cycle(copy)]
    pub fn copy(&self, alloc: Global) -> Result<Node, AllocError>
        ensures { IfOk result (λ node. node ≡ self.now) }
    {
        match self {
            Node::Nil => Ok(Node::Nil),
            Node::Bool(truth) => Ok(Node::Bool(*truth)),
            Node::Int(number) => Ok(Node::Int(*number)),
            Node::Sym(name) => Ok(Node::Sym(name.copy(alloc)?)),
            Node::Text(text) => Ok(Node::Text(text.copy(alloc)?)),
            Node::List(items) => Ok(Node::List(copy_items(alloc, items.as_slice())?)),
            Node::Hash(pairs) => Ok(Node::Hash(pairs.copy(alloc)?)),
            Node::Class(name) => Ok(Node::Class(name.copy(alloc)?)),
            Node::Module(name) => Ok(Node::Module(name.copy(alloc)?)),
            Node::Object(object) => Ok(Node::Object(Boxed::new(alloc, object.get().copy(alloc)?)?)),
            Node::Struct(object) => Ok(Node::Struct(Boxed::new(alloc, object.get().copy(alloc)?)?)),
            Node::Dumped(dumped) => Ok(Node::Dumped(Boxed::new(alloc, dumped.get().copy(alloc)?)?)),
            Node::Wrapped(wrapped) => Ok(Node::Wrapped(wrapped.copy(alloc)?)),
            Node::Remote(remote) => Ok(Node::Remote(Boxed::new(alloc, remote.get().copy(alloc)?)?)),
        }
    }
}

/// An equal list.
///
/// Errors: only want of memory.
#[cycle(copy)]
pub fn copy_items(alloc: Global, items: &[Value]) -> Result<Items<Value>, AllocError>
    ensures { IfOk result (λ list. list ≡ items.now) }
{
    let mut copies = Items::new(alloc);
    for item in items {
        copies.push(item.copy(alloc)?)?;
    }
    Ok(copies)
}

impl Pairs {
    /// Equal pairs, and an equal default.
    ///
    /// Errors: only want of memory.
    #[cycle(copy)]
    pub fn copy(&self, alloc: Global) -> Result<Pairs, AllocError>
        ensures { IfOk result (λ pairs. pairs ≡ self.now) }
    {
        let pairs = copy_pairs(alloc, self.pairs.as_slice())?;
        let default = copy_default(alloc, &self.default)?;
        Ok(Pairs { pairs, default })
    }
}

#[cycle(copy)]
fn copy_pairs(alloc: Global, pairs: &[(Value, Value)]) -> Result<Items<(Value, Value)>, AllocError>
    ensures { IfOk result (λ list. list ≡ pairs.now) }
{
    let mut copies = Items::new(alloc);
    for pair in pairs {
        let key = pair.0.copy(alloc)?;
        copies.push((key, pair.1.copy(alloc)?))?;
    }
    Ok(copies)
}

#[cycle(copy)]
fn copy_default(
    alloc: Global,
    default: &Option<Boxed<Value>>,
) -> Result<Option<Boxed<Value>>, AllocError>
    ensures { IfOk result (λ copied. copied ≡ default.now) }
{
    match default {
        None => Ok(None),
        Some(value) => Ok(Some(Boxed::new(alloc, value.get().copy(alloc)?)?)),
    }
}

impl FieldList {
    /// Equal fields.
    ///
    /// Errors: only want of memory.
    #[cycle(copy)]
    pub fn copy(&self, alloc: Global) -> Result<FieldList, AllocError>
        ensures { IfOk result (λ fields. fields ≡ self.now) }
    {
        let list = copy_fields(alloc, self.list.as_slice())?;
        Ok(FieldList { list })
    }
}

#[cycle(copy)]
fn copy_fields(alloc: Global, fields: &[(Name, Value)]) -> Result<Items<(Name, Value)>, AllocError>
    ensures { IfOk result (λ list. list ≡ fields.now) }
{
    let mut copies = Items::new(alloc);
    for field in fields {
        let name = field.0.copy(alloc)?;
        copies.push((name, field.1.copy(alloc)?))?;
    }
    Ok(copies)
}

impl Fields {
    /// The class and the fields once more.
    ///
    /// Errors: only want of memory.
    #[cycle(copy)]
    pub fn copy(&self, alloc: Global) -> Result<Fields, AllocError>
        ensures { IfOk result (λ object. object ≡ self.now) }
    {
        let class = self.class.copy(alloc)?;
        let fields = self.fields.copy(alloc)?;
        Ok(Fields { class, fields })
    }
}

impl Dumped {
    /// The class, the bytes and the variables once more.
    ///
    /// Errors: only want of memory.
    #[cycle(copy)]
    pub fn copy(&self, alloc: Global) -> Result<Dumped, AllocError>
        ensures { IfOk result (λ dumped. dumped ≡ self.now) }
    {
        let class = self.class.copy(alloc)?;
        let bytes = Items::from_slice(alloc, self.bytes.as_slice())?;
        let vars = self.vars.copy(alloc)?;
        Ok(Dumped { class, bytes, vars })
    }
}

impl Wrapped {
    /// The class and the inner value once more.
    ///
    /// Errors: only want of memory.
    #[cycle(copy)]
    pub fn copy(&self, alloc: Global) -> Result<Wrapped, AllocError>
        ensures { IfOk result (λ wrapped. wrapped ≡ self.now) }
    {
        let class = self.class.copy(alloc)?;
        let inner = Boxed::new(alloc, self.inner.get().copy(alloc)?)?;
        Ok(Wrapped { class, inner })
    }
}
