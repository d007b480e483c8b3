// The kinds of columns with children, each by how an element's number comes from the numbers of its child rows.
ghost use Rattle.std.specs.Prelude.{◌≡◌, ◌^◌, ◌<◌, length};
ghost use Rattle.columns.specs.Fold.{folded};
ghost use Rattle.columns.specs.Region.{number_in};
ghost use Rattle.columns.specs.Seams.{FoldThere};
ghost use Rattle.layout.specs.declared.column.Column.{Column};
ghost use Rattle.layout.specs.declared.data_type.DataType.{DataType};
ghost use Rattle.layout.specs.declared.data_type.DataType.TheVariants.{Dictionary, Struct, List as ListOf, ListView, Map, FixedSizeList, RunEnd};

use crate::fold::{
    References, hash_dictionary, hash_fixed_list_array, hash_list_array, hash_list_view_array,
    hash_map_array, hash_run_array, hash_struct_array,
};
use crate::region::Region;
use crate::run_ends::RunEnds;
use layout::bytes::Width;
use layout::column::Column;
use leaves::Wide;
use std::cell::Cell;
use std::marker::PhantomData;

// A kind of column with children. There is a type for each, by Arrow's names in Rust, and what `FoldThere` and `folded`
// say goes by it. Offsets and keys have a type of each width, so that no row looks at the width.
pub(crate) trait NestedArray {
    ghost column: { Self → Column };

    ghost data_type: { Self → DataType };

    // The number of an element that is not marked null, from an entry.
    fn fold(&self, at: usize, region: Region<'_>, first: bool, e: u64) -> u64
        requires reached { FoldThere (data_type self.now) (column self.now).bytes.now (column self.now).record at region.from (length region.numbers.now) }
        requires small { at < 2 ^ 32 }
        ensures { result ≡ folded (data_type self.now) (column self.now).bytes.now (column self.now).record (number_in region.entry) first e at };
}

// Fields, which an element has at its own place in each child.
#[derive(Drop)]
pub(crate) struct StructArray<'a>(pub Column<'a>);

impl NestedArray for StructArray<'_> {
    ghost column = { λ s. s.0 };

    ghost data_type = { λ s. Struct };

    fn fold(&self, at: usize, region: Region<'_>, first: bool, e: u64) -> u64 {
        hash_struct_array(&self.0, at, region, e)
    }
}

// Lists by offsets of a type.
#[derive(Drop)]
pub(crate) struct ListArray<'a, O> {
    pub column: Column<'a>,
    pub offsets: PhantomData<O>,
}

impl<O: Wide> NestedArray for ListArray<'_, O> {
    ghost column = { λ s. s.column };

    ghost data_type = { λ _. ListOf O.Native.width };

    fn fold(&self, at: usize, region: Region<'_>, first: bool, e: u64) -> u64 {
        hash_list_array::<O>(&self.column, at, region, e)
    }
}

// Lists by an offset and a size each, of a width.
#[derive(Drop)]
pub(crate) struct ListViewArray<'a> {
    pub column: Column<'a>,
    pub width: Width,
}

impl NestedArray for ListViewArray<'_> {
    ghost column = { λ s. s.column };

    ghost data_type = { λ s. ListView s.width };

    fn fold(&self, at: usize, region: Region<'_>, first: bool, e: u64) -> u64 {
        hash_list_view_array(&self.column, self.width, at, region, e)
    }
}

// Lists of keys with values, by offsets of 4 bytes.
#[derive(Drop)]
pub(crate) struct MapArray<'a>(pub Column<'a>);

impl NestedArray for MapArray<'_> {
    ghost column = { λ s. s.0 };

    ghost data_type = { λ s. Map };

    fn fold(&self, at: usize, region: Region<'_>, first: bool, e: u64) -> u64 {
        hash_map_array(&self.0, at, region, e)
    }
}

// Lists of `size` child rows each.
#[derive(Drop)]
pub(crate) struct FixedSizeListArray<'a> {
    pub column: Column<'a>,
    pub size: u32,
}

impl NestedArray for FixedSizeListArray<'_> {
    ghost column = { λ s. s.column };

    ghost data_type = { λ s. FixedSizeList s.size };

    fn fold(&self, at: usize, region: Region<'_>, first: bool, e: u64) -> u64 {
        hash_fixed_list_array(self.size, at, region, e)
    }
}

// Keys of a type, each the number of a child row.
#[derive(Drop)]
pub(crate) struct DictionaryArray<'a, K> {
    pub rows: References<'a>,
    pub keys: PhantomData<K>,
    pub signed: bool,
}

impl<K: Wide> NestedArray for DictionaryArray<'_, K> {
    ghost column = { λ s. s.rows.column };

    ghost data_type = { λ s. Dictionary K.Native.width s.signed };

    fn fold(&self, at: usize, region: Region<'_>, first: bool, e: u64) -> u64 {
        hash_dictionary::<K>(&self.rows, at, region, first, e)
    }
}

// Runs of equal rows, each a child row. `before` is the run of the element before, where the search begins: no number
// rests on it.
#[derive(Drop)]
pub(crate) struct RunArray<'a> {
    pub rows: References<'a>,
    pub ends: RunEnds<'a>,
    pub before: Cell<u32>,
    ghost same: { ends.column ≡ rows.column },
}

impl NestedArray for RunArray<'_> {
    ghost column = { λ s. s.rows.column };

    ghost data_type = { λ s. RunEnd s.ends.width };

    fn fold(&self, at: usize, region: Region<'_>, first: bool, e: u64) -> u64 {
        hash_run_array(self, at, region, first, e)
    }
}
