// The rows of a node that words meet, and the numbers that the words become.
ghost use Rattle.std.specs.Prelude.{◌≡◌, ℕ, ◌+◌, ◌^◌, ◌<◌, ◌≤◌, true, false, length, slice_index};
ghost use Rattle.columns.specs.Column.{met_rows};
ghost use Rattle.columns.specs.Jobs.{reach_from, region as region_of};
ghost use Rattle.layout.specs.declared.data_type.DataType.TheVariants.{Dictionary, List as ListOf};
ghost use Rattle.leaves.specs.Rows.{is_leaf, row_of};

use crate::fold::References;
use crate::nested::{
    DictionaryArray, FixedSizeListArray, ListArray, ListViewArray, MapArray, NestedArray, RunArray,
    StructArray,
};
use crate::node::Node;
use crate::region::Region;
use crate::span::Span;
use hash_state::HashState;
use layout::bytes::Width;
use layout::data_type::DataType;
use leaves::{Rows, Wide, hash_leaf};
use std::cell::Cell;
use std::marker::PhantomData;

// Rows of a node, each met by one of `n` words, below 2^32, and hashed as first or not. `n` stands beside the list:
// without a list nothing else says how many rows are met.
#[derive(Clone, Copy)]
pub(crate) struct Met<'a, 'l> {
    pub node: Node<'a>,
    pub rows: Rows<'l>,
    pub n: u32,
    pub first: bool,
    ghost listed: { met_rows n rows.list ≡ n },
    ghost there: { (j : ℕ) → j < n → row_of rows.lo rows.list j < node.column.record.rows },
    ghost low: { rows.lo ≤ node.column.record.rows },
    ghost fits: { rows.lo + n < 2 ^ 32 },
}

// The rows from the least to the greatest that a list names, none of an empty list; the node has `rows` of them.
fn bounds(list: &[u32], rows: u32) -> Span
    requires { (j : ℕ) → j < length list.now → slice_index list.now j < rows }
    ensures within { result.from + result.size ≤ rows }
    ensures met { (j : ℕ) → j < length list.now → (result.from ≤ slice_index list.now j) × (slice_index list.now j < result.from + result.size) }
{
    let mut lo = rows;
    let mut till = 0u32;
    for row in list {
        lo = lo.min(*row);
        till = till.max(*row + 1);
    }
    if till <= lo {
        return Span { from: 0, size: 0 };
    }
    Span {
        from: lo,
        size: till - lo,
    }
}

impl Met<'_, '_> {
    ghost use Rattle.columns.specs.Words.{row_met};
    ghost use Rattle.image.specs.Slot.{null};
    ghost use Rattle.leaves.specs.Rows.{column_slot, leaf_words};
    ghost use Rattle.row_rule.specs.Number.{number_of};

    // The rows from the least to the greatest that is met.
    pub(crate) fn span(&self) -> Span
        ensures within { result.from + result.size ≤ self.now.node.column.record.rows }
        ensures met { (j : ℕ) → j < self.now.n → (result.from ≤ row_met self.now j) × (row_met self.now j < result.from + result.size) }
    {
        let Some(list) = self.rows.list else {
            return Span {
                from: self.rows.lo,
                size: self.n,
            };
        };
        bounds(list, self.node.column.record.rows)
    }

    // The words become their rows' numbers, at a node without children.
    fn hash_leaf<S: HashState>(&self, state: &S, words: &mut [u64])
        requires leaf { is_leaf self.now.node.t ≡ true }
        requires words { length words.old ≡ self.now.n }
        ensures { let m = self.now in words.new ≡ leaf_words (number_of (S.BuildHasher.one state.now) (S.HashState.seeded state.now) m.first) (column_slot m.node.column m.node.t (λ _ _. null)) m.rows words.old }
    {
        hash_leaf(
            self.node.column,
            self.node.t,
            self.rows,
            state,
            words,
            self.first,
        );
    }
}

// Rows that words meet, a span of rows that has them all, and the numbers of the child rows that the span reaches.
#[derive(Clone, Copy)]
pub(crate) struct Fold<'a, 'l, 'w> {
    pub met: Met<'a, 'l>,
    pub span: Span,
    pub region: Region<'w>,
    ghost within: { span.from + span.size ≤ met.node.column.record.rows },
    ghost covers: { (j : ℕ) → j < met.n → (span.from ≤ row_of met.rows.lo met.rows.list j) × (row_of met.rows.lo met.rows.list j < span.from + span.size) },
    ghost from: { region.from ≡ reach_from met.node.t met.node.column.bytes.now met.node.column.record span.from },
    ghost size: { length region.numbers.now ≡ region_of met.node.t met.node.column.bytes.now met.node.column.record span.from span.size },
}

impl Fold<'_, '_, '_> {
    ghost use Rattle.columns.specs.Words.{folded_number, folded_words, hashed_words, row_met};

    // The number of a row of the span, from its word; a row that is marked null keeps it. Rows are of the size of
    // places here, so that a row's element is found by no cast.
    fn number<A: NestedArray>(&self, array: &A, row: usize, e: u64) -> u64
        requires covered { (self.now.span.from ≤ row) × (row < self.now.span.from + self.now.span.size) }
        requires column { A.NestedArray.column array.now ≡ self.now.met.node.column }
        requires kind { A.NestedArray.data_type array.now ≡ self.now.met.node.t }
        ensures { result ≡ folded_number self.now e row }
    {
        if self.met.node.is_marked(row as u32) {
            return e;
        }
        let at = self.met.node.column.record.start as usize + row;
        array.fold(at, self.region, self.met.first, e)
    }

    // Each word in place, at the row that it meets. The leaves have a loop of their own: one for both would take a
    // closure whose contract speaks of writes and of regions alike. Words are lent apart from what they are folded by,
    // so no field can say how many there are.
    fn fold_each<A: NestedArray, F: Fn(usize) -> usize + Drop>(
        &self,
        array: &A,
        row_at: F,
        words: &mut [u64],
    )
        requires words { length words.old ≡ self.now.met.n }
        requires column { A.NestedArray.column array.now ≡ self.now.met.node.column }
        requires kind { A.NestedArray.data_type array.now ≡ self.now.met.node.t }
        requires callable { (j : ℕ) → j < length words.old → F.pre row_at j }
        requires rows { (j row : ℕ) → j < length words.old → F.post row_at j row → row ≡ row_met self.now.met j }
        ensures { words.new ≡ folded_words self.now words.old }
    {
        for (j, word) in words.iter_mut().enumerate() {
            *word = self.number(array, row_at(j), *word);
        }
    }

    // Folds the child rows' numbers into the words, by one kind of column: a loop for a list and a loop without one, so
    // that no row looks for the list.
    fn fold_array<A: NestedArray>(&self, array: &A, words: &mut [u64])
        requires words { length words.old ≡ self.now.met.n }
        requires column { A.NestedArray.column array.now ≡ self.now.met.node.column }
        requires kind { A.NestedArray.data_type array.now ≡ self.now.met.node.t }
        ensures { words.new ≡ folded_words self.now words.old }
    {
        let lo = self.met.rows.lo as usize;
        let Some(list) = self.met.rows.list else {
            self.fold_each(array, |j| lo + j, words);
            return;
        };
        self.fold_each(array, |j| list[j] as usize, words);
    }

    // The same of lists, by offsets of one type.
    fn fold_offsets<O: Wide + Drop>(&self, words: &mut [u64])
        requires words { length words.old ≡ self.now.met.n }
        requires kind { self.now.met.node.t ≡ ListOf O.Native.width }
        ensures { words.new ≡ folded_words self.now words.old }
    {
        let column = self.met.node.column;
        let offsets = PhantomData::<O>;
        self.fold_array(&ListArray { column, offsets }, words);
    }

    fn fold_list(&self, width: Width, words: &mut [u64])
        requires words { length words.old ≡ self.now.met.n }
        requires kind { self.now.met.node.t ≡ ListOf width }
        ensures { words.new ≡ folded_words self.now words.old }
    {
        match width {
            Width::One => self.fold_offsets::<u8>(words),
            Width::Two => self.fold_offsets::<u16>(words),
            Width::Four => self.fold_offsets::<u32>(words),
            Width::Eight => self.fold_offsets::<u64>(words),
        }
    }

    // The same of a dictionary by keys of one type. Its numbers begin at the first value: the 0 says so to the
    // compiler, so that no row takes it off.
    fn fold_keys<K: Wide + Drop>(&self, signed: bool, words: &mut [u64])
        requires words { length words.old ≡ self.now.met.n }
        requires kind { self.now.met.node.t ≡ Dictionary K.Native.width signed }
        ensures { words.new ≡ folded_words self.now words.old }
    {
        let rows = References::of(&self.met.node);
        let region = Region {
            numbers: self.region.numbers,
            from: 0,
        };
        let fold = Fold {
            met: self.met,
            span: self.span,
            region,
        };
        let keys = PhantomData::<K>;
        fold.fold_array(&DictionaryArray { rows, keys, signed }, words);
    }

    fn fold_dictionary(&self, width: Width, signed: bool, words: &mut [u64])
        requires words { length words.old ≡ self.now.met.n }
        requires kind { self.now.met.node.t ≡ Dictionary width signed }
        ensures { words.new ≡ folded_words self.now words.old }
    {
        match width {
            Width::One => self.fold_keys::<u8>(signed, words),
            Width::Two => self.fold_keys::<u16>(signed, words),
            Width::Four => self.fold_keys::<u32>(signed, words),
            Width::Eight => self.fold_keys::<u64>(signed, words),
        }
    }

    // The same by the kind that the column is of.
    fn fold(&self, words: &mut [u64])
        requires nested { is_leaf self.now.met.node.t ≡ false }
        requires words { length words.old ≡ self.now.met.n }
        ensures { words.new ≡ folded_words self.now words.old }
    {
        let node = self.met.node;
        let column = node.column;
        match node.t {
            DataType::Struct => self.fold_array(&StructArray(column), words),
            DataType::List(width) => self.fold_list(width, words),
            DataType::ListView(width) => self.fold_array(&ListViewArray { column, width }, words),
            DataType::Map => self.fold_array(&MapArray(column), words),
            DataType::FixedSizeList(size) => {
                self.fold_array(&FixedSizeListArray { column, size }, words)
            }
            DataType::Dictionary(width, signed) => self.fold_dictionary(width, signed, words),
            DataType::RunEnd(width) => {
                let rows = References::of(&node);
                let ends = node.run_ends(width);
                let before = Cell::new(0);
                self.fold_array(&RunArray { rows, ends, before }, words)
            }
            _ => unreachable(),
        }
    }

    // Each word by the row rule: of a leaf by its row, else by the numbers of the row's child rows.
    pub(crate) fn hash<S: HashState>(self, state: &S, words: &mut [u64])
        requires { length words.old ≡ self.met.n }
        ensures { words.new ≡ hashed_words (S.BuildHasher.one state.now) (S.HashState.seeded state.now) self.entry words.old }
    {
        if self.met.node.is_leaf() {
            self.met.hash_leaf(state, words);
        } else {
            // a copy of its own to lend, so that for a leaf nothing has to stand in memory
            let nested = self;
            nested.fold(words);
        }
    }
}
