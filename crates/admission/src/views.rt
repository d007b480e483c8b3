// Whether views are padded with zeros, or begin with their first four bytes.
ghost use Rattle.std.specs.Prelude.{◌≡◌, ◌+◌, ◌≤◌, false, length};
ghost use Rattle.admission.specs.Rejections.{bad_buffer, bad_padding, bad_view, bad_views, out_of_reach};
ghost use Rattle.admission.specs.Seams.{ViewThere};
ghost use Rattle.layout.specs.Views.{view_length, view_place};

use crate::node::Node;
use layout::bytes::Native;
use layout::data_type::DataType;

// Bytes after a short view's own that are not all 0.
fn is_bad_padding(bytes: &[u8], view: usize, size: u32) -> bool
    requires size { (size ≡ view_length bytes.now view) × (size ≤ 12) }
    requires inside { view + 16 ≤ length bytes.now }
    ensures { result ≡ bad_padding bytes.now view }
{
    bytes[view + 4 + size as usize..view + 16]
        .iter()
        .any(|byte| *byte != 0)
}

impl Node<'_> {
    // An unmarked view with other padding than zeros, or with a prefix unlike its first bytes.
    fn is_bad_view(&self, row: u32) -> bool
        requires { ViewThere self.now.column.bytes.now self.now.column.record row }
        ensures { result ≡ bad_view self.now.column.bytes.now self.now.column.record row (view_place self.now.column.record row) }
    {
        if self.column.is_marked(row) {
            return false;
        }
        let bytes = self.column.bytes;
        let view = self.column.view_place(row);
        let size = u32::load(bytes, view);
        if size <= 12 {
            return is_bad_padding(bytes, view, size);
        }
        let place = self.column.long_view_place(view);
        u32::load(bytes, view + 4) != u32::load(bytes, place)
    }

    // A row with such a view, in a column of views.
    pub(crate) fn is_bad_views(&self) -> bool
        requires inside { bad_buffer self.now.column.bytes.now self.now.data_type self.now.column.record ≡ false }
        requires reached { out_of_reach self.now.column.bytes.now self.now.data_type self.now.column.record ≡ false }
        ensures { result ≡ bad_views self.now.column.bytes.now self.now.data_type self.now.column.record }
    {
        match self.data_type {
            DataType::View => (0..self.column.record.rows).any(|row| self.is_bad_view(row)),
            _ => false,
        }
    }
}
