// The folds of child rows' numbers into an entry: each `hash_..` function is for one element that is not marked null
// what the loop does in DataFusion's function of its name.
ghost use Rattle.std.specs.Prelude.{◌≡◌, ◌+◌, ◌*◌, ◌^◌, ◌<◌, false, cond, length, if◌then◌else◌, ◌==◌, nat_eq};
ghost use Rattle.admission.specs.Seams.{ElementThere};
ghost use Rattle.columns.specs.Region.{ChildRow, Holds, combined_in, key_of, number_in, referred_in};
ghost use Rattle.columns.specs.Seams.{OffsetsThere};
ghost use Rattle.hash_state.specs.Combine.{C};
ghost use Rattle.image.specs.Read.{offset, run_of, span};
ghost use Rattle.layout.specs.Nodes.{child, child_count, child_rows, element};
ghost use Rattle.layout.specs.declared.bytes.Width.TheVariants.{Four};
ghost use Rattle.row_rule.specs.Number.{combined};

use crate::nested::RunArray;
use crate::node::Node;
use crate::region::Region;
use hash_state::combine_hashes;
use layout::bytes::{Width, element_at};
use layout::column::Column;
use leaves::{Wide, element_of};

// The number that the fields of an element came to, 0 without fields, combined with the entry.
pub(crate) fn hash_struct_array(column: &Column<'_>, at: usize, region: Region<'_>, e: u64) -> u64
    requires { (column.now.record.cnt == 0) ≡ false → Holds region at 1 }
    ensures { result ≡ C e (if nat_eq column.now.record.cnt 0 then 0 else number_in region.entry at) }
{
    if column.record.cnt == 0 {
        return combine_hashes(e, 0);
    }
    combine_hashes(e, region.number(at))
}

// The child rows between the element's offset and the next.
pub(crate) fn hash_list_array<O: Wide>(
    column: &Column<'_>,
    at: usize,
    region: Region<'_>,
    e: u64,
) -> u64
    requires there { OffsetsThere O.Native.width column.now.bytes.now column.now.record at 1 }
    requires reached { Holds region (offset O.Native.width column.now.bytes.now column.now.record at) (span O.Native.width column.now.bytes.now column.now.record at) }
    requires small { at < 2 ^ 32 }
    ensures { result ≡ combined_in region.entry e (offset O.Native.width column.now.bytes.now column.now.record at) (span O.Native.width column.now.bytes.now column.now.record at) }
{
    let start = element_of::<O>(column, at);
    let end = element_of::<O>(column, at + 1);
    region.combine(start, end - start, e)
}

// The same over entries of keys with values; a map's offsets have 4 bytes.
pub(crate) fn hash_map_array(column: &Column<'_>, at: usize, region: Region<'_>, e: u64) -> u64
    requires there { OffsetsThere Four column.now.bytes.now column.now.record at 1 }
    requires reached { Holds region (offset Four column.now.bytes.now column.now.record at) (span Four column.now.bytes.now column.now.record at) }
    requires small { at < 2 ^ 32 }
    ensures { result ≡ combined_in region.entry e (offset Four column.now.bytes.now column.now.record at) (span Four column.now.bytes.now column.now.record at) }
{
    hash_list_array::<u32>(column, at, region, e)
}

// As many child rows as the element's size, from its offset on.
pub(crate) fn hash_list_view_array(
    column: &Column<'_>,
    width: Width,
    at: usize,
    region: Region<'_>,
    e: u64,
) -> u64
    requires there { (ElementThere width column.now.bytes.now column.now.record.a at) × (ElementThere width column.now.bytes.now column.now.record.b at) }
    requires reached { Holds region (element width column.now.bytes.now column.now.record.a at) (element width column.now.bytes.now column.now.record.b at) }
    ensures { result ≡ combined_in region.entry e (element width column.now.bytes.now column.now.record.a at) (element width column.now.bytes.now column.now.record.b at) }
{
    let start = column.number(width, at);
    // sizes are in the buffer at B, which no other kind reads as numbers
    let size = element_at(width, column.bytes, column.record.b as usize, at);
    region.combine(start, size, e)
}

// The `size` child rows of an element.
pub(crate) fn hash_fixed_list_array(size: u32, at: usize, region: Region<'_>, e: u64) -> u64
    requires reached { Holds region (size * at) size }
    requires small { size * at + size < 2 ^ 32 }
    ensures { result ≡ combined_in region.entry e (size * at) size }
{
    region.combine(size as u64 * at as u64, size as u64, e)
}

// A reference to a child row with a number; one that is marked null leaves the entry. Apart from its caller, so that the
// three cases are one equality.
fn refer(marked: bool, number: u64, first: bool, entry: u64) -> u64
    ensures { result ≡ cond marked «entry» (combined first «entry» number) }
{
    if marked {
        entry
    } else if first {
        number
    } else {
        combine_hashes(number, entry)
    }
}

// A column whose rows refer to rows of its one child.
#[derive(Clone, Copy)]
pub(crate) struct References<'a> {
    pub column: Column<'a>,
    pub values: Node<'a>,
    ghost same: { values.column.bytes.now ≡ column.bytes.now },
    ghost child: { values.number ≡ child column.bytes.now column.record 0 },
}

impl<'a> References<'a> {
    pub(crate) fn of(node: &Node<'a>) -> References<'a>
        requires { 0 < child_count (Some node.now.t) node.now.column.record }
        ensures { result.column ≡ node.now.column }
    {
        let column = node.column;
        let values = node.child(0);
        References { column, values }
    }

    // The number of a row that refers to a child row.
    fn refer_to(&self, row: u32, region: Region<'_>, first: bool, e: u64) -> u64
        requires row { row < child_rows self.now.column.bytes.now self.now.column.record 0 }
        requires reached { Holds region row 1 }
        ensures { result ≡ referred_in self.now.column region.entry first e row }
    {
        let number = region.number(row as usize);
        refer(self.values.is_marked(row), number, first, e)
    }
}

// The child row that the element's key names.
pub(crate) fn hash_dictionary<K: Wide>(
    rows: &References<'_>,
    at: usize,
    region: Region<'_>,
    first: bool,
    e: u64,
) -> u64
    requires there { ElementThere K.Native.width rows.now.column.bytes.now rows.now.column.record.a at }
    requires key { ChildRow rows.now.column (key_of K.Native.width rows.now.column at) }
    requires reached { Holds region (key_of K.Native.width rows.now.column at) 1 }
    ensures { result ≡ referred_in rows.now.column region.entry first e (key_of K.Native.width rows.now.column at) }
{
    let key = element_of::<K>(&rows.column, at);
    rows.refer_to(key as u32, region, first, e)
}

// The child row of the run that covers the element. It is looked for first where the element before had its own.
pub(crate) fn hash_run_array(
    array: &RunArray<'_>,
    at: usize,
    region: Region<'_>,
    first: bool,
    e: u64,
) -> u64
    requires run { run_of array.now.ends.width array.now.rows.column.bytes.now array.now.rows.column.record at < child_rows array.now.rows.column.bytes.now array.now.rows.column.record 0 }
    requires reached { Holds region (run_of array.now.ends.width array.now.rows.column.bytes.now array.now.rows.column.record at) 1 }
    ensures { result ≡ referred_in array.now.rows.column region.entry first e (run_of array.now.ends.width array.now.rows.column.bytes.now array.now.rows.column.record at) }
{
    let run = array.ends.near(at as u64, array.before.get());
    array.before.set(run);
    array.rows.refer_to(run, region, first, e)
}
