ghost use Rattle.std.specs.Prelude.{◌↔◌, ◌+◌, IsTrue, All};
ghost use Rattle.drb_tree.specs.Kept.{WellKept, Ranged, Fits, Within, AreBytes, IsI128, IdInRange, remote_list};
ghost use Rattle.drb_value.specs.Fitting.{Tells, Shallow, Sound, SoundName, ShallowPairs, SoundPairs, SoundField, ShallowFields, SoundFields, SoundObject, SoundDumped, OfDefault, OfPair, OfField};
ghost use Rattle.drb_value.specs.View.{view_of};

use crate::{Boxed, Dumped, FieldList, Fields, Name, Node, Pairs, RefId, Remote, Value};
use drb_tree::all_ascii;

/// The greatest depth of a value that fits.
const MAX_DEPTH: usize = 128;

/// The most nodes of a value that fits.
const MAX_NODES: u64 = 262144;

/// The most pairs, fields or variables of one value that fits.
const MAX_PAIRS: usize = 4096;

/// Whether the value fits into a dump, so that what is written of it is read again as the same value.
///
/// It fits where its depth is at most 128 and its nodes are at most 262,144, no value in it has more than 4,096 pairs,
/// fields or variables, the names of its classes and modules are ASCII, and each remote object's own list of uri and id
/// fits too. Takes time in proportion to the value, and goes at most 128 levels down, however deep the value is.
/// Source: docs/MARSHAL.md, Depth and nodes, and The written spelling.
pub fn fits(value: &Value) -> bool
    ensures exact { IsTrue result ↔ Fits value.now }
    ensures kept { IsTrue result → WellKept value.now × Ranged value.now }
{
    is_sound(value, MAX_DEPTH) && value.nodes() <= MAX_NODES
}

/// Whether the value is at most so deep, and small all the way down.
#[cycle(sound)]
fn is_sound(value: &Value, room: usize) -> bool
    ensures { Tells (Sound room value.now) (Shallow room value.now) result }
{
    room > 0 && is_sound_node(&value.node, room - 1)
}

/// Whether the node is small all the way down, and its parts are at most so deep.
#[cycle(sound)]
fn is_sound_node(node: &Node, room: usize) -> bool
    ensures { Tells
        (Sound (room + 1) (view_of node.now))
        (Shallow (room + 1) (view_of node.now))
        result }
{
    match node {
        Node::Nil => true,
        Node::Bool(_) => true,
        Node::Int(number) => {
            note_integer(*number);
            true
        }
        Node::Sym(name) => {
            note_name(name);
            true
        }
        Node::Text(text) => {
            note_bytes(text.bytes.as_slice());
            true
        }
        Node::List(items) => are_sound_items(items.as_slice(), room),
        Node::Hash(pairs) => are_sound_pairs(pairs, room),
        Node::Class(name) => {
            note_name(name);
            all_ascii(name.as_slice())
        }
        Node::Module(name) => {
            note_name(name);
            all_ascii(name.as_slice())
        }
        Node::Object(object) => is_sound_object(object.get(), room),
        Node::Struct(object) => is_sound_object(object.get(), room),
        Node::Dumped(dumped) => is_sound_dumped(dumped.get(), room),
        Node::Wrapped(wrapped) => {
            note_name(&wrapped.class);
            is_sound(wrapped.inner.get(), room)
        }
        Node::Remote(remote) => is_sound_remote(remote.get()),
    }
}

#[cycle(sound)]
fn are_sound_items(items: &[Value], room: usize) -> bool
    ensures { Tells (All (Sound room) items.now) (All (Shallow room) items.now) result }
{
    for item in items {
        if !is_sound(item, room) {
            return false;
        }
    }
    true
}

#[cycle(sound)]
fn are_sound_pairs(pairs: &Pairs, room: usize) -> bool
    ensures { Tells (SoundPairs room pairs.now) (ShallowPairs room pairs.now) result }
{
    pairs.len() <= MAX_PAIRS
        && is_sound_pair_slice(pairs.as_slice(), room)
        && is_sound_default(&pairs.default, room)
}

#[cycle(sound)]
fn is_sound_pair_slice(pairs: &[(Value, Value)], room: usize) -> bool
    ensures { Tells
        (All (OfPair (Sound room)) pairs.now)
        (All (OfPair (Shallow room)) pairs.now)
        result }
{
    for pair in pairs {
        if !is_sound(&pair.0, room) {
            return false;
        }
        if !is_sound(&pair.1, room) {
            return false;
        }
    }
    true
}

#[cycle(sound)]
fn is_sound_default(default: &Option<Boxed<Value>>, room: usize) -> bool
    ensures { Tells
        (OfDefault (Sound room) default.now)
        (OfDefault (Shallow room) default.now)
        result }
{
    match default {
        None => true,
        Some(value) => is_sound(value.get(), room),
    }
}

#[cycle(sound)]
fn is_sound_object(object: &Fields, room: usize) -> bool
    ensures { Tells (SoundObject room object.now) (ShallowFields room object.now.fields) result }
{
    note_name(&object.class);
    are_sound_fields(&object.fields, room)
}

#[cycle(sound)]
fn is_sound_dumped(dumped: &Dumped, room: usize) -> bool
    ensures { Tells (SoundDumped room dumped.now) (ShallowFields room dumped.now.2) result }
{
    note_name(dumped.class());
    note_bytes(dumped.bytes());
    are_sound_fields(dumped.vars(), room)
}

#[cycle(sound)]
fn are_sound_fields(fields: &FieldList, room: usize) -> bool
    ensures { Tells (SoundFields room fields.now) (ShallowFields room fields.now) result }
{
    fields.len() <= MAX_PAIRS && is_sound_field_slice(fields.as_slice(), room)
}

#[cycle(sound)]
fn is_sound_field_slice(fields: &[(Name, Value)], room: usize) -> bool
    ensures { Tells
        (All (SoundField room) fields.now)
        (All (OfField (Shallow room)) fields.now)
        result }
{
    for field in fields {
        note_name(&field.0);
        if !is_sound(&field.1, room) {
            return false;
        }
    }
    true
}

/// Whether the list of uri and id fits, which is what a remote object dumps of itself.
fn is_sound_remote(remote: &Remote) -> bool
    ensures within { IsTrue result ↔ Within (remote_list remote.now) }
    ensures uri { AreBytes remote.now.uri.bytes }
    ensures id { IdInRange remote.now.id }
{
    let uri = remote.uri.bytes.as_slice();
    let id = remote.id.text_bytes();
    note_bytes(uri);
    note_id(&remote.id);
    3 + uri.len() as u64 / 256 + id.len() as u64 / 256 <= MAX_NODES
}

// What the types of a value's leaves say, for the contracts above: these do nothing.

fn note_bytes(bytes: &[u8])
    ensures { AreBytes bytes.now }
{}

fn note_name(name: &Name)
    ensures { SoundName name.now }
{
    note_bytes(name.as_slice());
}

fn note_integer(number: i128)
    ensures { IsI128 number }
{}

fn note_id(id: &RefId)
    ensures { IdInRange id.now }
{
    match id {
        RefId::Front => {}
        RefId::Number(number) => note_integer(*number),
        RefId::Text(text) => note_bytes(text.bytes.as_slice()),
    }
}
