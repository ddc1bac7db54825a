//! Lending a tuple of a bag, and its return.

ghost use Rattle.std.specs.Prelude.{◌≡◌, List, IsSome, Some};
ghost use Rattle.rinda_rules.specs.declared.plain.Entry as entry;
ghost use Rattle.rinda_tuple.specs.declared.tuple.Tuple as plain;
ghost use Rattle.rinda_rules.specs.Rows.{row_of, without};
ghost use Rattle.rinda_bag.specs.Lending.{without_value};
ghost use Rattle.rinda_bag.specs.Loans.{IsLoan, HasItsMarks};

use crate::bag::Bag;
use crate::keys::remove_keys;
use crate::lent::Lent;
use rinda_marks::tuple_marks;
use rinda_rules::plain::Entry;
use rinda_tuple::Tuple;
use sqlite_items::Items;
use std::alloc::Global;

impl Bag {
    /// Lends the tuple of the row with that id, which is there. Takes no memory.
    pub fn lend(self, alloc: Global, id: u64) -> (Lent, Tuple)
        requires { IsSome (row_of (λ t. t.id) id self) }
        ensures id { (result.0).id ≡ id }
        ensures loan { IsLoan self result.1 result.0 }
    {
        let Bag {
            secret,
            mut rows,
            keys,
        } = self;
        let tuple = rows.swap_value(id, Tuple::List(Items::new(alloc)));
        let marks = tuple_marks(&secret, &tuple);
        let lent = Lent {
            secret,
            rows,
            keys,
            id,
            marks,
        };
        (lent, tuple)
    }
}

impl Lent {
    /// Puts the tuple back that was lent: the bag is as before. Takes no memory.
    pub fn give_back(self, tuple: Tuple) -> Bag
        requires { HasItsMarks self tuple }
        ensures { (rows : List entry.Entry) → IsLoan rows tuple self → result ≡ rows }
    {
        let Lent {
            secret,
            mut rows,
            keys,
            id,
            marks: _,
        } = self;
        drop(rows.swap_value(id, tuple));
        Bag { secret, rows, keys }
    }

    /// The bag without the row whose tuple was lent, and what is left of that row: all but its tuple, in whose place is
    /// an empty one. Takes no memory.
    pub fn take_out(self) -> (Bag, Entry)
        ensures row { (rows : List entry.Entry) (tuple : plain.Tuple) (t : entry.Entry) →
            IsLoan rows tuple self → row_of (λ t. t.id) self.id rows ≡ Some t →
            result.1 ≡ without_value t }
        ensures rest { (rows : List entry.Entry) (tuple : plain.Tuple) →
            IsLoan rows tuple self → result.0 ≡ without (λ t. t.id) self.id rows }
    {
        let Lent {
            secret,
            mut rows,
            mut keys,
            id,
            marks,
        } = self;
        let row = rows.take_out(id).unwrap();
        remove_keys(&mut keys, marks, id);
        (Bag { secret, rows, keys }, row)
    }
}
