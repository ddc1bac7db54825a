//! The methods that there are, by their names.

ghost use Rattle.std.specs.Prelude.{◌≡◌, bytes_eq, codes};
ghost use Rattle.drb_dispatch.specs.Methods.{front_methods, object_methods, method_named};

/// A method of the space, which is the front object.
///
/// Source: Ruby's tuplespace.rb, TupleSpace; docs/SESSIONS.md, Dispatch.
#[derive(Clone, Copy, Debug, PartialEq, Eq)]
pub enum FrontMethod {
    Write,
    Take,
    Read,
    ReadAll,
    Notify,
    Move,
}

/// A method of an object of the space.
///
/// Source: Ruby's tuplespace.rb, TupleEntry and NotifyTemplateEntry; docs/SESSIONS.md, Dispatch.
#[derive(Clone, Copy, Debug, PartialEq, Eq)]
pub enum ObjectMethod {
    Cancel,
    Renew,
    IsAlive,
    IsExpired,
    IsCanceled,
    Value,
    Pop,
    Each,
}

/// A method of the space, or one of the object of that id.
#[derive(Clone, Copy, Debug, PartialEq, Eq)]
pub enum Method {
    Front(FrontMethod),
    Object(u64, ObjectMethod),
}

/// How many arguments a method takes: from `least` to `most`.
#[derive(Clone, Copy, Debug, PartialEq, Eq)]
pub struct Counts {
    pub least: usize,
    pub most: usize,
}

/// The name is that word.
pub fn is(word: &str, name: &[u8]) -> bool
    ensures { result ≡ bytes_eq word.now name.now }
{
    word.as_bytes() == name
}

/// From `least` to `most` arguments.
fn between(least: usize, most: usize) -> Counts
    ensures { result ≡ record { least = least; most = most } }
{
    Counts { least, most }
}

/// The method of the space that has this name, and how many arguments it takes.
pub fn front_method(name: &[u8]) -> Option<(FrontMethod, Counts)>
    ensures { result ≡ method_named name.now front_methods }
{
    if is("write", name) {
        return Some((FrontMethod::Write, between(1, 2)));
    }
    if is("take", name) {
        return Some((FrontMethod::Take, between(1, 2)));
    }
    if is("read", name) {
        return Some((FrontMethod::Read, between(1, 2)));
    }
    if is("read_all", name) {
        return Some((FrontMethod::ReadAll, between(1, 1)));
    }
    if is("notify", name) {
        return Some((FrontMethod::Notify, between(2, 3)));
    }
    if is("move", name) {
        return Some((FrontMethod::Move, between(2, 3)));
    }
    None
}

/// The method of an object that has this name, and how many arguments it takes.
pub fn object_method(name: &[u8]) -> Option<(ObjectMethod, Counts)>
    ensures { result ≡ method_named name.now object_methods }
{
    if is("cancel", name) {
        return Some((ObjectMethod::Cancel, between(0, 0)));
    }
    if is("renew", name) {
        return Some((ObjectMethod::Renew, between(1, 1)));
    }
    if is("alive?", name) {
        return Some((ObjectMethod::IsAlive, between(0, 0)));
    }
    if is("expired?", name) {
        return Some((ObjectMethod::IsExpired, between(0, 0)));
    }
    if is("canceled?", name) {
        return Some((ObjectMethod::IsCanceled, between(0, 0)));
    }
    if is("value", name) {
        return Some((ObjectMethod::Value, between(0, 0)));
    }
    if is("pop", name) {
        return Some((ObjectMethod::Pop, between(0, 0)));
    }
    if is("each", name) {
        return Some((ObjectMethod::Each, between(0, 0)));
    }
    None
}
