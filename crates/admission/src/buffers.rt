// Whether a node's buffers lie inside the image.
ghost use Rattle.std.specs.Prelude.{◌≡◌, ◌+◌, ◌*◌, ◌^◌, ◌≤◌, length};
ghost use Rattle.admission.specs.Rejections.{bad_buffer, bad_values, outside};
ghost use Rattle.layout.specs.Nodes.{bitmap_bytes};
ghost use Rattle.layout.specs.Records.{elements};
ghost use Rattle.layout.specs.Views.{buffer_length, buffer_place};

use crate::node::Node;
use crate::table::is_outside;
use layout::bytes::Native;
use layout::data_type::DataType;

impl Node<'_> {
    // A bitmap of a bit for each element that is not inside.
    fn is_bitmap_outside(&self, place: u32) -> bool
        ensures { result ≡ outside (length self.now.column.bytes.now) place (bitmap_bytes (elements self.now.column.record)) }
    {
        let bits = self.column.record.elements();
        is_outside(self.column.bytes.len(), place, (bits + 7) / 8)
    }

    // A buffer of so many elements that is not inside.
    fn is_buffer_outside(&self, place: u32, size: u32, count: u64) -> bool
        requires { count ≤ 2 ^ 32 }
        ensures { result ≡ outside (length self.now.column.bytes.now) place (size * count) }
    {
        is_outside(self.column.bytes.len(), place, u64::from(size) * count)
    }

    // A view's data buffer that is not inside.
    fn is_data_buffer_outside(&self, index: u32) -> bool
        requires { self.now.column.record.tab + 8 * index + 8 ≤ length self.now.column.bytes.now }
        ensures { let bytes = self.now.column.bytes.now in let r = self.now.column.record in result ≡ outside (length bytes) (buffer_place bytes r index) (buffer_length bytes r index) }
    {
        let bytes = self.column.bytes;
        let pair = self.column.record.tab as usize + 8 * index as usize;
        let place = u32::load(bytes, pair);
        let size = u32::load(bytes, pair + 4);
        is_outside(bytes.len(), place, u64::from(size))
    }

    // A buffer of the type's own that is not inside.
    fn is_bad_values(&self) -> bool
        ensures { result ≡ bad_values self.now.column.bytes.now self.now.data_type self.now.column.record }
    {
        let r = self.column.record;
        let elements = r.elements();
        match self.data_type {
            DataType::Boolean => self.is_bitmap_outside(r.a),
            DataType::Number(w) | DataType::Float(w) | DataType::Dictionary(w, _) => {
                self.is_buffer_outside(r.a, w.bytes(), elements)
            }
            DataType::Utf8(w) | DataType::Binary(w) | DataType::List(w) => {
                self.is_buffer_outside(r.a, w.bytes(), elements + 1)
            }
            DataType::FixedSizeBinary(size) => self.is_buffer_outside(r.a, size, elements),
            DataType::View => {
                self.is_buffer_outside(r.a, 16, elements)
                    || (0..r.cnt).any(|index| self.is_data_buffer_outside(index))
            }
            DataType::ListView(w) => {
                self.is_buffer_outside(r.a, w.bytes(), elements)
                    || self.is_buffer_outside(r.b, w.bytes(), elements)
            }
            DataType::Map => self.is_buffer_outside(r.a, 4, elements + 1),
            DataType::RunEnd(w) => {
                self.is_buffer_outside(r.a, w.bytes(), u64::from(self.column.child_rows(0)))
            }
            _ => false,
        }
    }

    // The bitmap, a buffer or a view's data buffer that is not inside.
    pub(crate) fn is_bad_buffer(&self) -> bool
        ensures { result ≡ bad_buffer self.now.column.bytes.now self.now.data_type self.now.column.record }
    {
        let nulls = self.column.record.nulls;
        let has_bitmap = self.data_type.reads_nulls() && nulls != 0;
        has_bitmap && self.is_bitmap_outside(nulls) || self.is_bad_values()
    }
}
