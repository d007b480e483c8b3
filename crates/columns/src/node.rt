// A node of an admitted image, as the walk sees it.
ghost use Rattle.std.specs.Prelude.{◌≡◌, ◌<◌, ◌&&◌, true};
ghost use Rattle.admission.specs.FirstFault.{sound};
ghost use Rattle.columns.specs.Jobs.{or_null, type_of};
ghost use Rattle.layout.specs.Nodes.{child, child_count, marked, reads_nulls};
ghost use Rattle.layout.specs.Records.{nodes, record_at};
ghost use Rattle.layout.specs.Types.{data_type};
ghost use Rattle.leaves.specs.Rows.{is_leaf};

use image::place::Image;
use layout::column::Column;
use layout::data_type::DataType;
use layout::record::Record;

// A node of an image that admission has found without a fault: its column, its number, from 0 to 255, and its type.
#[derive(Clone, Copy)]
pub(crate) struct Node<'a> {
    pub(crate) column: Column<'a>,
    pub(crate) number: u32,
    pub(crate) t: DataType,
    ghost sound: { sound column.bytes.now ≡ true },
    ghost there: { number < nodes column.bytes.now },
    ghost read: { column.record ≡ record_at column.bytes.now number },
    ghost typed: { t ≡ type_of column.bytes.now number },
}

// The type of a record; those of a sound image have one.
fn type_of(r: &Record) -> DataType
    ensures { result ≡ or_null (data_type r.now) }
{
    r.data_type().unwrap_or(DataType::Null)
}

impl<'a> Node<'a> {
    // A node of a sound image.
    fn read(bytes: &'a [u8], number: u32) -> Node<'a>
        requires sound { sound bytes.now ≡ true }
        requires there { number < nodes bytes.now }
        ensures bytes { result.column.bytes.now ≡ bytes.now }
        ensures number { result.number ≡ number }
    {
        let column = Column::read(bytes, number as usize);
        let t = type_of(&column.record);
        Node { column, number, t }
    }

    // The node of a number. Whoever makes it shows that there is one; the node then keeps that.
    pub(crate) fn of(image: &Image<'a>, number: u32) -> Node<'a>
        requires { number < nodes image.now.bytes.now }
        ensures bytes { result.column.bytes.now ≡ image.now.bytes.now }
        ensures number { result.number ≡ number }
    {
        Node::read(image.bytes(), number)
    }

    // Another node of the same image.
    pub(crate) fn other(&self, number: u32) -> Node<'a>
        requires { number < nodes self.now.column.bytes.now }
        ensures bytes { result.column.bytes.now ≡ self.now.column.bytes.now }
        ensures number { result.number ≡ number }
    {
        Node::read(self.column.bytes, number)
    }

    // A child by its place in TAB, from 0.
    pub(crate) fn child(&self, index: u32) -> Node<'a>
        requires { index < child_count (Some self.now.t) self.now.column.record }
        ensures bytes { result.column.bytes.now ≡ self.now.column.bytes.now }
        ensures number { result.number ≡ child self.now.column.bytes.now self.now.column.record index }
    {
        self.other(self.column.child(index))
    }

    // How many children it has.
    pub(crate) fn child_count(&self) -> u32
        ensures { result ≡ child_count (Some self.now.t) self.now.column.record }
    {
        self.t.table().listed(self.column.record.cnt)
    }

    // Whether its slots stand for no other slots.
    pub(crate) fn is_leaf(&self) -> bool
        ensures { result ≡ is_leaf self.now.t }
    {
        !matches!(
            self.t,
            DataType::Dictionary(_, _)
                | DataType::Struct
                | DataType::List(_)
                | DataType::ListView(_)
                | DataType::Map
                | DataType::FixedSizeList(_)
                | DataType::RunEnd(_)
        )
    }

    // Whether a row is marked null.
    pub(crate) fn is_marked(&self, row: u32) -> bool
        requires { row < self.now.column.record.rows }
        ensures { result ≡ (reads_nulls self.now.t && marked self.now.column.bytes.now self.now.column.record row) }
    {
        self.column.is_null(self.t, row)
    }
}
