// The loop over entries, one for every kind of column.
ghost use Rattle.std.specs.Prelude.{◌≡◌, ℕ, ◌+◌, ◌^◌, ◌<◌, length};
ghost use Rattle.image.specs.Slot.{Slot};
ghost use Rattle.leaves.specs.Rows.{LeafRow, RowsFor, column_slot, leaf_words, row_of};
ghost use Rattle.row_rule.specs.Number.{number_of};

use crate::reader::Reader;
use crate::rows::Rows;
use hash_state::{BuildHasher, HashState, HashValue, hash_later};
use layout::column::Column;
use layout::data_type::DataType;

// What entries are hashed by: the rows that they meet of a column, and a state, for a first column or a later one.
#[derive(Drop)]
pub(crate) struct Hashing<'a, 'b, S> {
    pub column: Column<'a>,
    pub data_type: DataType,
    pub rows: Rows<'b>,
    pub state: &'b S,
    pub first: bool,
}

impl<'a, S: HashState> Hashing<'a, '_, S> {
    // Each entry in place, at the row that it meets; a null leaves it as it is. Entries are lent apart from the fields, so
    // no field can say how many there are.
    fn each<R: Reader<'a>, F: Fn(usize) -> u32 + Drop>(
        self,
        reader: &R,
        row_at: F,
        entries: &mut [u64],
    )
        requires typed { R.data_type reader.now ≡ self.data_type }
        requires readable { (j : ℕ) → j < length entries.old → LeafRow self.column.bytes.now self.data_type self.column.record (row_of self.rows.lo self.rows.list j) }
        requires callable { (j : ℕ) → j < length entries.old → F.pre row_at j }
        requires rows { (j row : ℕ) → j < length entries.old → F.post row_at j row → row ≡ row_of self.rows.lo self.rows.list j }
        ensures { let h = self.entry in (down : ℕ → ℕ → Slot) → entries.new ≡ leaf_words (number_of (S.BuildHasher.one h.state.now) (S.HashState.seeded h.state.now) h.first) (column_slot h.column h.data_type down) h.rows entries.old }
    {
        for (j, entry) in entries.iter_mut().enumerate() {
            let row = row_at(j);
            if self.column.is_null(self.data_type, row) {
                continue;
            }
            let value = reader.value(&self.column, row);
            // hash_entry says the same, and takes a sixth more time over first texts under FNV-1a
            *entry = if self.first {
                value.hash_one(self.state)
            } else {
                hash_later(&value, self.state, *entry)
            };
        }
    }

    // A loop for a list and a loop without one: to look for the list at each entry takes a tenth more time over numbers.
    pub(crate) fn run<R: Reader<'a>>(self, reader: &R, entries: &mut [u64])
        requires typed { R.data_type reader.now ≡ self.data_type }
        requires readable { (j : ℕ) → j < length entries.old → LeafRow self.column.bytes.now self.data_type self.column.record (row_of self.rows.lo self.rows.list j) }
        requires listed { RowsFor self.rows.list (length entries.old) }
        requires fits { self.rows.lo + length entries.old < 2 ^ 32 }
        ensures { let h = self.entry in (down : ℕ → ℕ → Slot) → entries.new ≡ leaf_words (number_of (S.BuildHasher.one h.state.now) (S.HashState.seeded h.state.now) h.first) (column_slot h.column h.data_type down) h.rows entries.old }
    {
        let lo = self.rows.lo;
        let Some(list) = self.rows.list else {
            // it never saturates; a plain sum lets LLVM hash two numbers of 4 bytes a turn, which takes longer than one by one
            self.each(reader, |j| lo.saturating_add(j as u32), entries);
            return;
        };
        self.each(reader, |j| list[j], entries);
    }
}
