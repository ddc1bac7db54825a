//! Marks against SipHash-1-3 as its reference computes it, over the two words, the value's bytes and its kind.

use crate::{Marks, Secret, tuple_marks};
use drb_value::{Name, Value};
use rinda_tuple::Tuple;
use sqlite_items::Items;
use std::test::Fail;

#[test]
fn marks_of_a_tuple_are_siphash_of_its_first_values(rt: HostRuntime) -> Result<(), Fail> {
    let alloc = rt.alloc();
    let mut items = Items::new(alloc);
    items.push(Value::sym(Name::of(alloc, b"job")?))?;
    items.push(Value::int(-5))?;
    let marks = tuple_marks(&Secret::new(1, 2), &Tuple::List(items));
    let expected = Marks {
        first: Some(8545288633137370594),
        second: Some(1970065145950183356),
    };
    assert_eq!(rt; marks, expected);
    Ok(())
}
