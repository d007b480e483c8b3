// What is read of a node by its record.
ghost use Rattle.std.specs.Prelude.{◌≡◌, ◌+◌, ◌*◌, ◌≤◌, true, ◌&&◌, length};
ghost use Rattle.layout.specs.Bytes.{wide};
ghost use Rattle.layout.specs.Nodes.{ChildThere, HoldsBit, child, child_rows, element, marked, reads_nulls};
ghost use Rattle.layout.specs.Records.{record_at};
ghost use Rattle.layout.specs.Views.{buffer_place, view_buffer, view_offset, view_place};

use crate::bytes::{Native, Width, bit_at, element_at};
use crate::data_type::DataType;
use crate::record::Record;

// A node's column: its record, and the image that the record stands in.
#[derive(Clone, Copy)]
pub struct Column<'a> {
    pub bytes: &'a [u8],
    pub record: Record,
}

impl<'a> Column<'a> {
    // The column of a node, whose record is inside.
    pub fn read(bytes: &'a [u8], node: usize) -> Column<'a>
        requires { 4 + 36 * node + 36 ≤ length bytes.now }
        ensures bytes { result.bytes.now ≡ bytes.now }
        ensures record { result.record ≡ record_at bytes.now node }
    {
        let record = Record::read(bytes, node);
        Column { bytes, record }
    }

    // The element of a row: those before the first row are skipped.
    pub fn element(&self, row: u32) -> usize
        ensures { result ≡ self.now.record.start + row }
    {
        self.record.start as usize + row as usize
    }

    // Whether a row is marked null; the bitmap, if there is one, holds the row's bit.
    pub fn is_marked(&self, row: u32) -> bool
        requires { HoldsBit self.now.bytes.now self.now.record row }
        ensures { result ≡ marked self.now.bytes.now self.now.record row }
    {
        self.record.nulls != 0 && !bit_at(self.bytes, self.record.nulls as usize, self.element(row))
    }

    // Whether a row is null: of the types whose NULLS is read, where it is marked so.
    pub fn is_null(&self, data_type: DataType, row: u32) -> bool
        requires { reads_nulls data_type ≡ true → HoldsBit self.now.bytes.now self.now.record row }
        ensures { result ≡ (reads_nulls data_type && marked self.now.bytes.now self.now.record row) }
    {
        data_type.reads_nulls() && self.is_marked(row)
    }

    // The node number of a child.
    pub fn child(&self, index: u32) -> u32
        requires { self.now.record.tab + 4 * index + 4 ≤ length self.now.bytes.now }
        ensures { result ≡ child self.now.bytes.now self.now.record index }
    {
        u32::load(self.bytes, self.record.tab as usize + 4 * index as usize)
    }

    // How many rows a child has.
    pub fn child_rows(&self, index: u32) -> u32
        requires { ChildThere self.now.bytes.now self.now.record index }
        ensures { result ≡ child_rows self.now.bytes.now self.now.record index }
    {
        u32::load(self.bytes, 4 + 36 * self.child(index) as usize + 4)
    }

    // A number of the buffer at A: an offset, a key, a run end or a value.
    pub fn number(&self, width: Width, index: usize) -> u64
        requires { self.now.record.a + wide width * index + wide width ≤ length self.now.bytes.now }
        ensures { result ≡ element width self.now.bytes.now self.now.record.a index }
    {
        element_at(width, self.bytes, self.record.a as usize, index)
    }

    // Where the view of a row stands.
    pub fn view_place(&self, row: u32) -> usize
        ensures { result ≡ view_place self.now.record row }
    {
        self.record.a as usize + 16 * self.element(row)
    }

    // Where the bytes of a long view stand: in a data buffer, from its place on.
    pub fn long_view_place(&self, view: usize) -> usize
        requires view { view + 16 ≤ length self.now.bytes.now }
        requires pair { self.now.record.tab + 8 * view_buffer self.now.bytes.now view + 8 ≤ length self.now.bytes.now }
        ensures { result ≡ buffer_place self.now.bytes.now self.now.record (view_buffer self.now.bytes.now view) + view_offset self.now.bytes.now view }
    {
        let pair = self.record.tab as usize + 8 * u32::load(self.bytes, view + 8) as usize;
        u32::load(self.bytes, pair) as usize + u32::load(self.bytes, view + 12) as usize
    }
}
