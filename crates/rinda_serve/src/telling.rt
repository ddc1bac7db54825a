//! The requests that wait to read a value are answered with it.

ghost use Rattle.std.specs.Prelude.{◌≡◌, map, OnOk, IfOk};
ghost use Rattle.rinda_rules.specs.Space.{Plain};
ghost use Rattle.rinda_rules.specs.Cases.{read_by};
ghost use Rattle.rinda_wait.specs.Waiting.{readers_of};
ghost use Rattle.rinda_tables.specs.Holds.{Holds};
ghost use Rattle.rinda_tables.specs.Tabled.{ahead_of, Stays, Becomes};

use rinda_rules::{Out, RequestState};
use rinda_tables::Tables;
use rinda_tuple::Tuple;
use std::alloc::{AllocError, Global};

/// Each request that waits to read the tuple is answered with a copy of it, in rising id. Their ids are the result.
///
/// Errors: only want of memory; some are answered then, and others not, ahead of what stands.
/// Source: docs/SPACE.md, Phases, Serve; Cases, Write.
pub fn tell(tables: &mut Tables, alloc: Global, value: &Tuple) -> Result<Vec<u64>, AllocError>
    ensures told { OnOk result (Becomes
        (λ s. record s { requests = map (read_by value.now) s.requests }) tables.old tables.new) }
    ensures ids { IfOk result (λ ids. (s : Plain) → Holds s (ahead_of tables.old) →
        ids.items ≡ readers_of value.now s.requests) }
    ensures stays { Stays tables.old tables.new }
{
    let ids = tables.requests.readers(alloc, value)?;
    tell_each(tables, alloc, value, &ids)?;
    Ok(ids)
}

/// The requests with these ids, which are all that wait to read the tuple, are answered with it.
fn tell_each(
    tables: &mut Tables,
    alloc: Global,
    value: &Tuple,
    ids: &[u64],
) -> Result<(), AllocError>
    requires { ids.now ≡ readers_of value.now tables.old.requests.ahead }
    ensures told { OnOk result (Becomes
        (λ s. record s { requests = map (read_by value.now) s.requests }) tables.old tables.new) }
    ensures stays { Stays tables.old tables.new }
{
    for id in ids {
        let copied = value.to_value(alloc)?;
        tables.set_request(*id, RequestState::Answered(Out::Answer(copied)))?;
    }
    Ok(())
}
