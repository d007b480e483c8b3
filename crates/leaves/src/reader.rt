// How the rows of a column are read, by its type.
ghost use Rattle.std.specs.Prelude.{◌≡◌, ℕ, ◌+◌, false, ◌&&◌};
ghost use Rattle.image.specs.Slot.{Slot};
ghost use Rattle.layout.specs.Nodes.{marked, reads_nulls};
ghost use Rattle.layout.specs.declared.data_type.DataType.{DataType};
ghost use Rattle.layout.specs.declared.data_type.DataType.TheVariants.{Null, Boolean};
ghost use Rattle.leaves.specs.Rows.{LeafRow, unmarked_slot};
ghost use Rattle.leaves.specs.Tells.{Tells};

use hash_state::{HashValue, Nothing};
use layout::bytes::bit_at;
use layout::column::Column;

pub(crate) trait Reader<'a> {
    type Item: HashValue + Drop;

    // The type of the columns that are read so.
    ghost data_type: { Self → DataType };

    // The value of a row that is not null.
    fn value(&self, column: &Column<'a>, row: u32) -> Self::Item
        requires there { LeafRow column.now.bytes.now (data_type self.now) column.now.record row }
        requires unmarked { (reads_nulls (data_type self.now) && marked column.now.bytes.now column.now.record row) ≡ false }
        ensures { (down : ℕ → ℕ → Slot) → Tells Self.Item.HashValue.seeding (Self.Item.HashValue.writes result) (Self.Item.HashValue.seed_writes result) (unmarked_slot column.now (data_type self.now) down row) };
}

#[derive(Drop)]
pub(crate) struct Nothings;

impl<'a> Reader<'a> for Nothings {
    type Item = Nothing;

    ghost data_type = { λ _. Null };

    #[tactic(auto, using(crate::proofs::Told::told_nothing))]
    fn value(&self, column: &Column<'a>, row: u32) -> Nothing {
        Nothing
    }
}

#[derive(Drop)]
pub(crate) struct Booleans;

impl<'a> Reader<'a> for Booleans {
    type Item = bool;

    ghost data_type = { λ _. Boolean };

    #[tactic(auto, using(crate::proofs::Told::told_boolean))]
    fn value(&self, column: &Column<'a>, row: u32) -> bool {
        bit_at(column.bytes, column.record.a as usize, column.element(row))
    }
}
