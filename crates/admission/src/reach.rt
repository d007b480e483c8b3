// Whether every row reaches child rows and bytes that are there.
ghost use Rattle.std.specs.Prelude.{◌≡◌, ℕ, ◌+◌, ◌*◌, ◌<◌, ◌≤◌, false, length};
ghost use Rattle.admission.specs.Rejections.{bad_buffer, bad_key, bad_list_view, bad_reference, last_offset, out_of_reach};
ghost use Rattle.admission.specs.Seams.{ElementThere};
ghost use Rattle.layout.specs.Nodes.{ChildThere, HoldsBit};
ghost use Rattle.layout.specs.Records.{elements};
ghost use Rattle.layout.specs.Views.{view_place};

use crate::node::Node;
use crate::table::{is_outside, is_past};
use layout::bytes::{Native, Width, element_at};
use layout::data_type::DataType;

impl Node<'_> {
    // An unmarked key that is no row of the values. Each test of a row asks for what it reads of that row, and for its
    // mark first, as each of the definitions does.
    fn is_bad_key(&self, width: Width, signed: bool, row: u32) -> bool
        requires bit { HoldsBit self.now.column.bytes.now self.now.column.record row }
        requires key { ElementThere width self.now.column.bytes.now self.now.column.record.a (self.now.column.record.start + row) }
        requires child { ChildThere self.now.column.bytes.now self.now.column.record 0 }
        ensures { result ≡ bad_key self.now.column.bytes.now width signed self.now.column.record row }
    {
        if self.column.is_marked(row) {
            return false;
        }
        let key = self.column.number(width, self.column.element(row));
        signed && width.negative(key) || u64::from(self.column.child_rows(0)) <= key
    }

    // An unmarked list view that is negative or ends past the child's rows.
    fn is_bad_list_view(&self, width: Width, row: u32) -> bool
        requires bit { HoldsBit self.now.column.bytes.now self.now.column.record row }
        requires offset { ElementThere width self.now.column.bytes.now self.now.column.record.a (self.now.column.record.start + row) }
        requires size { ElementThere width self.now.column.bytes.now self.now.column.record.b (self.now.column.record.start + row) }
        requires child { ChildThere self.now.column.bytes.now self.now.column.record 0 }
        ensures { result ≡ bad_list_view self.now.column.bytes.now width self.now.column.record row }
    {
        if self.column.is_marked(row) {
            return false;
        }
        let at = self.column.element(row);
        let offset = self.column.number(width, at);
        let size = element_at(width, self.column.bytes, self.column.record.b as usize, at);
        width.negative(offset)
            || width.negative(size)
            || is_past(u64::from(self.column.child_rows(0)), offset, size)
    }

    // An unmarked long view that names no data buffer or ends past it.
    fn is_bad_reference(&self, row: u32) -> bool
        requires bit { HoldsBit self.now.column.bytes.now self.now.column.record row }
        requires view { view_place self.now.column.record row + 16 ≤ length self.now.column.bytes.now }
        requires pairs { let r = self.now.column.record in (i : ℕ) → i < r.cnt → r.tab + 8 * i + 8 ≤ length self.now.column.bytes.now }
        ensures { result ≡ bad_reference self.now.column.bytes.now self.now.column.record row (view_place self.now.column.record row) }
    {
        if self.column.is_marked(row) {
            return false;
        }
        let bytes = self.column.bytes;
        let r = self.column.record;
        let view = self.column.view_place(row);
        let length = u32::load(bytes, view);
        if length <= 12 {
            return false;
        }
        let buffer = u32::load(bytes, view + 8);
        if buffer >= r.cnt {
            return true;
        }
        let offset = u32::load(bytes, view + 12);
        let size = u32::load(bytes, r.tab as usize + 8 * buffer as usize + 4);
        is_past(u64::from(size), u64::from(offset), u64::from(length))
    }

    // The last of a node's offsets.
    fn last_offset(&self, width: Width) -> u64
        requires { ElementThere width self.now.column.bytes.now self.now.column.record.a (elements self.now.column.record) }
        ensures { result ≡ last_offset width self.now.column.bytes.now self.now.column.record }
    {
        self.column
            .number(width, self.column.record.elements() as usize)
    }

    // A row that reaches a child row or byte that is not there.
    pub(crate) fn is_out_of_reach(&self) -> bool
        requires { bad_buffer self.now.column.bytes.now self.now.data_type self.now.column.record ≡ false }
        ensures { result ≡ out_of_reach self.now.column.bytes.now self.now.data_type self.now.column.record }
    {
        let column = &self.column;
        let r = column.record;
        let elements = r.elements();
        match self.data_type {
            DataType::Utf8(w) | DataType::Binary(w) => {
                is_outside(column.bytes.len(), r.b, self.last_offset(w))
            }
            DataType::View => (0..r.rows).any(|row| self.is_bad_reference(row)),
            DataType::Dictionary(w, signed) => {
                (0..r.rows).any(|row| self.is_bad_key(w, signed, row))
            }
            DataType::Struct => {
                (0..r.cnt).any(|index| u64::from(column.child_rows(index)) < elements)
            }
            DataType::List(w) => u64::from(column.child_rows(0)) < self.last_offset(w),
            DataType::ListView(w) => (0..r.rows).any(|row| self.is_bad_list_view(w, row)),
            DataType::Map => {
                let last = self.last_offset(Width::Four);
                u64::from(column.child_rows(0)) < last || u64::from(column.child_rows(1)) < last
            }
            DataType::FixedSizeList(size) => {
                u64::from(column.child_rows(0)) < u64::from(size) * elements
            }
            DataType::RunEnd(w) => {
                elements > 0 && self.end_before(w, column.child_rows(0)) < elements
            }
            _ => false,
        }
    }
}
