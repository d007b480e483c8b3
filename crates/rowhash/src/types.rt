// The types of columns by their Arrow names.
use layout::bytes::Width;
use layout::data_type::DataType;
use std::fmt;

#[derive(Clone, Copy)]
pub struct TypeName(pub DataType);

// A width in words.
#[derive(Clone, Copy)]
struct Size(Width);

impl fmt::Display for Size {
    fn fmt<W: fmt::Write>(&self, f: &mut fmt::Formatter<W>) -> fmt::Result {
        // as they stand: to print the number takes a fifth of the time that a row of a dictionary is shown in
        f.write_str(match self.0 {
            Width::One => "1 byte",
            Width::Two => "2 bytes",
            Width::Four => "4 bytes",
            Width::Eight => "8 bytes",
        })
    }
}

// Arrow's prefix for offsets of 8 bytes: a word as it stands, which a Display would only wrap.
fn large(width: Width) -> &'static str {
    match width {
        Width::Eight => "Large",
        _ => "",
    }
}

impl fmt::Display for TypeName {
    fn fmt<W: fmt::Write>(&self, f: &mut fmt::Formatter<W>) -> fmt::Result {
        match self.0 {
            DataType::Null => f.write_str("Null"),
            DataType::Boolean => f.write_str("Boolean"),
            DataType::Number(width) => write!(f, "Number({})", Size(width)),
            DataType::Float(width) => write!(f, "Float({})", Size(width)),
            DataType::Utf8(width) => write!(f, "{}Utf8", large(width)),
            DataType::Binary(width) => write!(f, "{}Binary", large(width)),
            DataType::FixedSizeBinary(size) => write!(f, "FixedSizeBinary({size})"),
            DataType::View => f.write_str("View"),
            DataType::Dictionary(width, _) => write!(f, "Dictionary({})", Size(width)),
            DataType::Struct => f.write_str("Struct"),
            DataType::List(width) => write!(f, "{}List", large(width)),
            DataType::ListView(width) => write!(f, "{}ListView", large(width)),
            DataType::Map => f.write_str("Map"),
            DataType::FixedSizeList(size) => write!(f, "FixedSizeList({size})"),
            DataType::RunEnd(width) => write!(f, "RunEndEncoded({})", Size(width)),
        }
    }
}
