// The type of a column, by the Arrow Columnar Format.
ghost use Rattle.std.specs.Prelude.{◌≡◌};
ghost use Rattle.layout.specs.Nodes.{child_count, listed, reads_nulls, table};
ghost use Rattle.layout.specs.Types.{data_type, kind_of, width};

use crate::bytes::Width;
use crate::kind::Kind;
use crate::record::Record;

// A kind with what P and B say of it: the width of its numbers, offsets, keys or run ends, or the fixed size of a row, in
// bytes of a FixedSizeBinary and in child rows of a FixedSizeList, up to 65,535.
#[derive(Clone, Copy)]
pub enum DataType {
    Null,
    Boolean,
    Number(Width),
    Float(Width),
    Utf8(Width),
    Binary(Width),
    FixedSizeBinary(u32),
    View,
    // Whether keys are signed, as Arrow's own flag of an integer type.
    Dictionary(Width, bool),
    Struct,
    List(Width),
    ListView(Width),
    Map,
    FixedSizeList(u32),
    RunEnd(Width),
}

// What a node's TAB lists: children, of which there are so many at least and at most, or places and lengths of data
// buffers, of which there are so many at most.
#[derive(Clone, Copy)]
pub enum Table {
    Unread,
    Children(u32, u32),
    Pairs(u32),
}

impl DataType {
    // Its kind alone.
    pub fn kind(self) -> Kind
        ensures { result ≡ kind_of self }
    {
        match self {
            DataType::Null => Kind::Null,
            DataType::Boolean => Kind::Boolean,
            DataType::Number(_) => Kind::Number,
            DataType::Float(_) => Kind::Float,
            DataType::Utf8(_) => Kind::Utf8,
            DataType::Binary(_) => Kind::Binary,
            DataType::FixedSizeBinary(_) => Kind::FixedSizeBinary,
            DataType::View => Kind::View,
            DataType::Dictionary(_, _) => Kind::Dictionary,
            DataType::Struct => Kind::Struct,
            DataType::List(_) => Kind::List,
            DataType::ListView(_) => Kind::ListView,
            DataType::Map => Kind::Map,
            DataType::FixedSizeList(_) => Kind::FixedSizeList,
            DataType::RunEnd(_) => Kind::RunEnd,
        }
    }

    // What its TAB lists.
    pub fn table(self) -> Table
        ensures { result ≡ table self }
    {
        match self {
            DataType::View => Table::Pairs(65_535),
            DataType::Struct => Table::Children(0, 255),
            DataType::Map => Table::Children(2, 2),
            DataType::Dictionary(_, _)
            | DataType::List(_)
            | DataType::ListView(_)
            | DataType::FixedSizeList(_)
            | DataType::RunEnd(_) => Table::Children(1, 1),
            _ => Table::Unread,
        }
    }

    // Whether NULLS is read: rows of the other two types are never marked null.
    pub fn reads_nulls(self) -> bool
        ensures { result ≡ reads_nulls self }
    {
        !matches!(self, DataType::Null | DataType::RunEnd(_))
    }
}

impl Table {
    // How many of its entries are children.
    pub fn listed(self, count: u32) -> u32
        ensures { result ≡ listed self count }
    {
        match self {
            Table::Children(_, _) => count,
            _ => 0,
        }
    }
}

impl Width {
    // The width of p bytes, where p is 1, 2, 4 or 8 and at least `least`.
    pub fn of(p: u32, least: u32) -> Option<Width>
        ensures { result ≡ width p least }
    {
        match p {
            1 if least <= 1 => Some(Width::One),
            2 if least <= 2 => Some(Width::Two),
            4 if least <= 4 => Some(Width::Four),
            8 if least <= 8 => Some(Width::Eight),
            _ => None,
        }
    }
}

impl Record {
    // The type that KIND, P and B tell, or none where they stand in no line of the table.
    pub fn data_type(&self) -> Option<DataType>
        ensures { result ≡ data_type self.now }
    {
        let p = self.p;
        match self.kind {
            1 => Some(DataType::Null),
            2 => Some(DataType::Boolean),
            3 => Some(DataType::Number(Width::of(p, 1)?)),
            4 => Some(DataType::Float(Width::of(p, 2)?)),
            6 => Some(DataType::Utf8(Width::of(p, 4)?)),
            7 => Some(DataType::Binary(Width::of(p, 4)?)),
            8 if p <= 65_535 => Some(DataType::FixedSizeBinary(p)),
            9 => Some(DataType::View),
            10 if self.b <= 1 => Some(DataType::Dictionary(Width::of(p, 1)?, self.b == 1)),
            11 => Some(DataType::Struct),
            12 => Some(DataType::List(Width::of(p, 4)?)),
            13 => Some(DataType::ListView(Width::of(p, 4)?)),
            14 => Some(DataType::Map),
            15 if p <= 65_535 => Some(DataType::FixedSizeList(p)),
            16 => Some(DataType::RunEnd(Width::of(p, 2)?)),
            _ => None,
        }
    }

    // How many children a node has, none where it has no type.
    pub fn child_count(&self) -> u32
        ensures { result ≡ child_count (data_type self.now) self.now }
    {
        self.data_type()
            .map_or(0, |data_type| data_type.table().listed(self.cnt))
    }
}
