//! What stands in a space: ReadAll.

ghost use Rattle.std.specs.Prelude.{◌≡◌, ◌++◌, OnOk, IfOk};
ghost use Rattle.rinda_rules.specs.Rows.{row_of};
ghost use Rattle.rinda_rules.specs.Space.{Plain};
ghost use Rattle.rinda_rules.specs.Cases.{all_of};
ghost use Rattle.rinda_tables.specs.Holds.{Holds};
ghost use Rattle.rinda_tables.specs.Tabled.{ahead_of};
ghost use Rattle.rinda_cases.specs.Reads.{value_in, values_at};

use drb_value::Value;
use rinda_rules::Out;
use rinda_tables::{Tables, Tuples};
use rinda_tuple::Template;
use sqlite_items::Items;
use std::alloc::{AllocError, Global};

/// All live tuples that the pattern matches, in rising id.
///
/// Errors: only want of memory.
/// Source: docs/SPACE.md, Cases, ReadAll.
pub fn read_all(tables: &Tables, alloc: Global, pattern: &Template) -> Result<Out, AllocError>
    ensures { IfOk result (λ out. (s : Plain) → Holds s (ahead_of tables.now) →
        out ≡ Out.All (all_of s pattern.now)) }
{
    let ids = tables.tuples.find_all(alloc, pattern, tables.clock)?;
    let all = values_of(&tables.tuples, alloc, &ids)?;
    Ok(Out::All(all))
}

/// The values of the tuples with these ids.
fn values_of(tuples: &Tuples, alloc: Global, ids: &[u64]) -> Result<Items<Value>, AllocError>
    ensures { IfOk result (λ all. all ≡ values_at tuples.now.ahead ids.now) }
{
    let mut all = Items::new(alloc);
    for id in ids {
        push_value(&mut all, tuples, alloc, *id)?;
    }
    Ok(all)
}

fn push_value(
    all: &mut Items<Value>,
    tuples: &Tuples,
    alloc: Global,
    id: u64,
) -> Result<(), AllocError>
    ensures { OnOk result
        (all.new ≡ all.old ++ value_in (row_of (λ t. t.id) id tuples.now.ahead)) }
{
    if let Some(row) = tuples.row(id) {
        all.push(row.value.to_value(alloc)?)?;
    }
    Ok(())
}
