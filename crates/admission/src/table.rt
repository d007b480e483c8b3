// Lengths, tables and children.
ghost use Rattle.std.specs.Prelude.{◌≡◌, ℕ, ◌+◌, ◌*◌, ◌<◌, ◌≤◌, false, length};
ghost use Rattle.admission.specs.Rejections.{bad_child, bad_table, outside, too_long};
ghost use Rattle.admission.specs.Seams.{highest};
ghost use Rattle.layout.specs.Nodes.{child};
ghost use Rattle.layout.specs.Records.{nodes};

use layout::column::Column;
use layout::data_type::Table;
use layout::record::Record;

// The most rows, and the most elements before the first row.
const MAX_ROWS: u32 = 1_048_576;

// Whether so many bytes from a place on do not end within an image of this length.
pub(crate) fn is_outside(len: usize, place: u32, size: u64) -> bool
    ensures { result ≡ outside len place size }
{
    is_past(len as u64, u64::from(place), size)
}

// The same of a limit and a place of any size, with no sum that could wrap.
pub(crate) fn is_past(limit: u64, place: u64, size: u64) -> bool
    ensures { result ≡ outside limit place size }
{
    limit < size || limit - size < place
}

pub(crate) fn is_too_long(r: &Record) -> bool
    ensures { result ≡ too_long r.now }
{
    r.rows > MAX_ROWS || r.start > MAX_ROWS
}

pub(crate) fn is_bad_table(len: usize, table: Table, r: &Record) -> bool
    ensures { result ≡ bad_table len table r.now }
{
    match table {
        Table::Unread => false,
        Table::Children(least, most) => {
            r.cnt < least || r.cnt > most || is_outside(len, r.tab, 4 * u64::from(r.cnt))
        }
        Table::Pairs(most) => r.cnt > most || is_outside(len, r.tab, 8 * u64::from(r.cnt)),
    }
}

// A child number that is not above the node's own, or not below the node count.
pub(crate) fn is_bad_child(column: &Column, count: u32, node: u32, table: Table) -> bool
    requires count { count ≡ nodes column.now.bytes.now }
    requires tabled { bad_table (length column.now.bytes.now) table column.now.record ≡ false }
    ensures { result ≡ bad_child column.now.bytes.now node table column.now.record }
{
    (0..table.listed(column.record.cnt)).any(|index| {
        let child = column.child(index);
        child <= node || child >= count
    })
}

// The greatest height of a node's children, 0 without children.
pub(crate) fn highest(column: &Column, heights: &[u8; 256], children: u32) -> u8
    requires { let bytes = column.now.bytes.now in let r = column.now.record in (k : ℕ) → k < children → (r.tab + 4 * k + 4 ≤ length bytes) × (child bytes r k < 256) }
    ensures { result ≡ highest column.now.bytes.now heights.now column.now.record children }
{
    (0..children).fold(0, |best: u8, index| {
        best.max(heights[column.child(index) as usize])
    })
}
