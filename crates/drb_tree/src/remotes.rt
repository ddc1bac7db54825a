ghost use Rattle.std.specs.Prelude.{◌≡◌, IfOk};
ghost use Rattle.drb_tree.specs.Same.{same_id, same_remote};
ghost use Rattle.drb_tree.specs.Sizes.{id_bytes, remote_nodes};

use crate::{RefId, Remote};
use std::alloc::{AllocError, Global};

impl Remote {
    /// An equal reference.
    ///
    /// Errors: only want of memory.
    pub fn copy(&self, alloc: Global) -> Result<Remote, AllocError>
        ensures { IfOk result (λ remote. remote ≡ self.now) }
    {
        let uri = self.uri.copy(alloc)?;
        let id = self.id.copy(alloc)?;
        Ok(Remote { uri, id })
    }

    /// Whether the two references are the same, by uri and id.
    ///
    /// Source: Ruby's drb.rb, DRbObject#==; docs/MARSHAL.md, Equality.
    pub fn same(&self, other: &Remote) -> bool
        ensures { result ≡ same_remote self.now other.now }
    {
        self.uri.same(&other.uri) && self.id.same(&other.id)
    }

    /// How many nodes the reference counts.
    ///
    /// Source: docs/MARSHAL.md, Depth and nodes.
    pub fn nodes(&self) -> u64
        ensures { result ≡ remote_nodes self.now }
    {
        let uri = self.uri.bytes.as_slice();
        let id = self.id.text_bytes();
        2 + (uri.len() as u64 + id.len() as u64) / 256
    }
}

impl RefId {
    /// An equal id.
    ///
    /// Errors: only want of memory.
    pub fn copy(&self, alloc: Global) -> Result<RefId, AllocError>
        ensures { IfOk result (λ id. id ≡ self.now) }
    {
        Ok(match self {
            RefId::Front => RefId::Front,
            RefId::Number(number) => RefId::Number(*number),
            RefId::Text(text) => RefId::Text(text.copy(alloc)?),
        })
    }

    /// Whether the two ids are the same: both the front, equal numbers, or texts that are the same.
    ///
    /// Source: docs/MARSHAL.md, Equality.
    pub fn same(&self, other: &RefId) -> bool
        ensures { result ≡ same_id self.now other.now }
    {
        match self {
            RefId::Front => matches!(other, RefId::Front),
            RefId::Number(number) => match other {
                RefId::Number(second) => *number == *second,
                _ => false,
            },
            RefId::Text(text) => match other {
                RefId::Text(second) => text.same(second),
                _ => false,
            },
        }
    }

    /// The bytes of a text id; none for every other id.
    pub fn text_bytes(&self) -> &[u8]
        ensures { result.now ≡ id_bytes self.now }
    {
        match self {
            RefId::Front => &[],
            RefId::Number(_) => &[],
            RefId::Text(text) => text.bytes.as_slice(),
        }
    }
}
