// The hashes of a leaf's rows, by its type.
ghost use Rattle.std.specs.Prelude.{◌≡◌, ℕ, ◌+◌, ◌^◌, ◌<◌, true, length, Some};
ghost use Rattle.image.specs.Slot.{Slot};
ghost use Rattle.layout.specs.Types.{data_type};
ghost use Rattle.leaves.specs.Rows.{LeafRow, RowsFor, column_slot, is_leaf, leaf_words, row_of};
ghost use Rattle.row_rule.specs.Number.{number_of};

use crate::bytes::{Binaries, FixedBinaries, Texts};
use crate::hashing::Hashing;
use crate::number::{Floats, Numbers};
use crate::reader::{Booleans, Nothings};
use crate::rows::Rows;
use crate::view::Views;
use hash_state::HashState;
use layout::bytes::Width;
use layout::column::Column;
use layout::data_type::DataType;
use std::marker::PhantomData;

// Each word becomes its number by the row rule at the row that it meets, of a column whose rows stand for no other rows.
// There are as many words as rows are met.
pub fn hash_leaf<S: HashState>(
    column: Column<'_>,
    t: DataType,
    rows: Rows<'_>,
    state: &S,
    entries: &mut [u64],
    first: bool,
)
    requires leaf { is_leaf t ≡ true }
    requires typed { Some t ≡ data_type column.record }
    requires readable { (j : ℕ) → j < length entries.old → LeafRow column.bytes.now t column.record (row_of rows.lo rows.list j) }
    requires listed { RowsFor rows.list (length entries.old) }
    requires fits { rows.lo + length entries.old < 2 ^ 32 }
    ensures { (down : ℕ → ℕ → Slot) → entries.new ≡ leaf_words (number_of (S.BuildHasher.one state.now) (S.HashState.seeded state.now) first) (column_slot column.entry t down) rows.entry entries.old }
{
    let hashing = Hashing {
        column,
        data_type: t,
        rows,
        state,
        first,
    };
    match t {
        DataType::Null => hashing.run(&Nothings, entries),
        DataType::Boolean => hashing.run(&Booleans, entries),
        DataType::Number(Width::One) => hashing.run(&Numbers(PhantomData::<u8>), entries),
        DataType::Number(Width::Two) => hashing.run(&Numbers(PhantomData::<u16>), entries),
        DataType::Number(Width::Four) => hashing.run(&Numbers(PhantomData::<u32>), entries),
        DataType::Number(Width::Eight) => hashing.run(&Numbers(PhantomData::<u64>), entries),
        DataType::Float(Width::Two) => hashing.run(&Floats(PhantomData::<u16>), entries),
        DataType::Float(Width::Four) => hashing.run(&Floats(PhantomData::<u32>), entries),
        DataType::Float(Width::Eight) => hashing.run(&Floats(PhantomData::<u64>), entries),
        DataType::Utf8(Width::Four) => hashing.run(&Texts(PhantomData::<u32>), entries),
        DataType::Utf8(Width::Eight) => hashing.run(&Texts(PhantomData::<u64>), entries),
        DataType::Binary(Width::Four) => hashing.run(&Binaries(PhantomData::<u32>), entries),
        DataType::Binary(Width::Eight) => hashing.run(&Binaries(PhantomData::<u64>), entries),
        DataType::FixedSizeBinary(size) => hashing.run(&FixedBinaries(size), entries),
        DataType::View => hashing.run(&Views, entries),
        // no float has one byte, and no offset has one byte or two
        DataType::Float(Width::One) => unreachable(),
        DataType::Utf8(Width::One) => unreachable(),
        DataType::Utf8(Width::Two) => unreachable(),
        DataType::Binary(Width::One) => unreachable(),
        DataType::Binary(Width::Two) => unreachable(),
        // no other type is a leaf
        _ => unreachable(),
    }
}
