// The slot reader: an admitted image is read without a test.
ghost use Rattle.std.specs.Prelude.{◌≡◌, ℕ, ◌+◌, ◌*◌, ◌≤◌, true, false, ◌&&◌, length};
ghost use Rattle.admission.specs.Seams.{ViewThere};
ghost use Rattle.image.specs.Levels.{DeepEnough};
ghost use Rattle.image.specs.Read.{part, span_bytes, span_place, typed_slot, unmarked, view_bytes, view_bytes_place};
ghost use Rattle.image.specs.Seams.{Readable, SpanThere};
ghost use Rattle.image.specs.Slot.{Slot};
ghost use Rattle.image.specs.Values.{answered, told, typed_value, value_answer};
ghost use Rattle.layout.specs.Nodes.{HoldsBit, marked, reads_nulls};
ghost use Rattle.layout.specs.Views.{view_place};

use crate::place::Image;
use crate::value::{Part, SlotFault, SlotValue};
use layout::bytes::{Native, Width, bit_at};
use layout::column::Column;
use layout::data_type::DataType;

// The bytes between a row's offset and the next.
fn span_at<'a>(column: &Column<'a>, width: Width, row: u32) -> Part<'a>
    requires { SpanThere width column.now.bytes.now column.now.record (column.now.record.start + row) }
    ensures place { result.place ≡ span_place width column.now.bytes.now column.now.record (column.now.record.start + row) }
    ensures bytes { result.bytes.now ≡ span_bytes width column.now.bytes.now column.now.record (column.now.record.start + row) }
{
    let data = column.record.b as usize;
    let place = data + column.number(width, column.element(row)) as usize;
    let end = data + column.number(width, column.element(row) + 1) as usize;
    Part {
        place,
        bytes: &column.bytes[place..end],
    }
}

// A row's bytes of a fixed size.
pub fn fixed_at<'a>(column: &Column<'a>, size: u32, row: u32) -> Part<'a>
    requires { column.now.record.a + size * (column.now.record.start + row) + size ≤ length column.now.bytes.now }
    ensures place { result.place ≡ column.now.record.a + size * (column.now.record.start + row) }
    ensures bytes { result.bytes.now ≡ part column.now.bytes.now (column.now.record.a + size * (column.now.record.start + row)) size }
{
    let size = size as usize;
    let place = column.record.a as usize + size * column.element(row);
    Part {
        place,
        bytes: &column.bytes[place..place + size],
    }
}

// The bytes of an unmarked view.
fn view_at<'a>(column: &Column<'a>, row: u32) -> Part<'a>
    requires there { ViewThere column.now.bytes.now column.now.record row }
    requires unmarked { marked column.now.bytes.now column.now.record row ≡ false }
    ensures place { result.place ≡ view_bytes_place column.now.bytes.now column.now.record (view_place column.now.record row) }
    ensures bytes { result.bytes.now ≡ view_bytes column.now.bytes.now column.now.record (view_place column.now.record row) }
{
    let bytes = column.bytes;
    let view = column.view_place(row);
    let size = u32::load(bytes, view) as usize;
    if size <= 12 {
        let place = view + 4;
        return Part {
            place,
            bytes: &bytes[place..place + size],
        };
    }
    let place = column.long_view_place(view);
    Part {
        place,
        bytes: &bytes[place..place + size],
    }
}

// The value of an unmarked row. The type goes beside the column: a record may have none.
fn unmarked_value<'a>(column: &Column<'a>, t: DataType, row: u32) -> SlotValue<'a>
    requires readable { Readable t column.now.bytes.now column.now.record row }
    requires unmarked { (reads_nulls t && marked column.now.bytes.now column.now.record row) ≡ false }
    ensures { let bytes = column.now.bytes.now in let r = column.now.record in (down : ℕ → ℕ → Slot) → told result ≡ typed_value t bytes r row (unmarked t bytes r down row (r.start + row)) }
{
    let at = column.element(row);
    match t {
        DataType::Boolean => {
            SlotValue::Boolean(bit_at(column.bytes, column.record.a as usize, at))
        }
        DataType::Number(w) => SlotValue::Number(w, column.number(w, at)),
        DataType::Float(w) => SlotValue::Float(w, column.number(w, at)),
        DataType::Utf8(w) => SlotValue::Text(span_at(column, w, row)),
        DataType::Binary(w) => SlotValue::Binary(span_at(column, w, row)),
        DataType::FixedSizeBinary(size) => SlotValue::Binary(fixed_at(column, size, row)),
        DataType::View => SlotValue::View(view_at(column, row)),
        _ => SlotValue::Kind(t.kind()),
    }
}

// The value of a row: the null mark, or the value.
fn value<'a>(column: &Column<'a>, t: DataType, row: u32) -> SlotValue<'a>
    requires bit { reads_nulls t ≡ true → HoldsBit column.now.bytes.now column.now.record row }
    requires readable { Readable t column.now.bytes.now column.now.record row }
    ensures { let bytes = column.now.bytes.now in let r = column.now.record in (down : ℕ → ℕ → Slot) → told result ≡ typed_value t bytes r row (typed_slot t bytes r down row) }
{
    if column.is_null(t, row) {
        return SlotValue::Null;
    }
    unmarked_value(column, t, row)
}

impl<'a> Image<'a> {
    // The slot of a row, or 13 where there is no such node, 17 where there is no such row.
    pub fn slot(&self, node: u64, row: u64) -> Result<SlotValue<'a>, SlotFault>
        ensures answer { answered result ≡ value_answer self.now.bytes.now node row }
        ensures levels { DeepEnough self.now.bytes.now node row }
    {
        let record = self.node(node).ok_or(SlotFault::NoNode)?;
        if row >= u64::from(record.rows) {
            return Err(SlotFault::NoRow);
        }
        let Some(t) = record.data_type() else {
            unreachable()
        };
        let column = Column {
            bytes: self.bytes,
            record,
        };
        Ok(value(&column, t, row as u32))
    }
}
