ghost use Rattle.rinda_bag.specs.Lending.{IsLent};

use crate::rows::Rows;
use rinda_marks::{Marks, Secret};
use std::collections::BTreeSet;

/// A bag one of whose tuples is lent: an answer can be made of the tuple itself, and it can be put back without memory.
///
/// Meanwhile nothing is looked for in the bag.
/// Source: docs/DECISIONS.md, Tables of the space.
#[derive(Drop)]
pub struct Lent {
    pub(crate) secret: Secret,
    pub(crate) rows: Rows,
    pub(crate) keys: BTreeSet<u128>,
    pub(crate) id: u64,
    pub(crate) marks: Marks,
    ghost lent: { IsLent secret id marks rows keys.keys },
}
