// Slots as lines of text: as replay answers them, and for a person.
use crate::types::TypeName;
use image::value::{Part, SlotFault, SlotValue};
use layout::bytes::Width;
use layout::data_type::DataType;
use std::fmt;
use std::str::from_utf8;
use text::Hex;

// The bits of a float, two digits for each of its bytes.
#[derive(Clone, Copy)]
struct Bits(Width, u64);

impl fmt::Display for Bits {
    fn fmt<W: fmt::Write>(&self, f: &mut fmt::Formatter<W>) -> fmt::Result {
        let Bits(width, bits) = *self;
        let digits = 2 * width.bytes() as usize;
        write!(f, "{bits:0digits$x}")
    }
}

// A part of the image by its place and its bytes; nothing after the place where there are no bytes.
#[derive(Clone, Copy)]
struct Placed<'a>(Part<'a>);

impl fmt::Display for Placed<'_> {
    fn fmt<W: fmt::Write>(&self, f: &mut fmt::Formatter<W>) -> fmt::Result {
        let Part { place, bytes } = self.0;
        if bytes.is_empty() {
            return write!(f, "{place}");
        }
        write!(f, "{place} {}", Hex(bytes))
    }
}

// What replay answers to `slot`.
#[derive(Clone, Copy)]
pub struct SlotAnswer<'a>(pub Result<SlotValue<'a>, SlotFault>);

impl fmt::Display for SlotAnswer<'_> {
    fn fmt<W: fmt::Write>(&self, f: &mut fmt::Formatter<W>) -> fmt::Result {
        match self.0 {
            Ok(SlotValue::Null) => f.write_str("null"),
            Ok(SlotValue::Boolean(value)) => write!(f, "boolean {value}"),
            Ok(SlotValue::Number(width, value)) => write!(f, "number {} {value}", width.bytes()),
            Ok(SlotValue::Float(width, bits)) => write!(
                f,
                "float {} {}",
                width.bytes(),
                Bits(width, bits)
            ),
            Ok(SlotValue::Text(part)) => write!(f, "text {}", Placed(part)),
            Ok(SlotValue::Binary(part)) => write!(f, "binary {}", Placed(part)),
            Ok(SlotValue::View(part)) => write!(f, "view {}", Placed(part)),
            Ok(SlotValue::Kind(kind)) => write!(f, "kind {}", kind.number()),
            Err(fault) => write!(f, "refused {}", fault.number()),
        }
    }
}

// A text as a person reads it: what cannot be printed, and what is not UTF-8, byte by byte.
#[derive(Clone, Copy)]
struct Quoted<'a>(&'a [u8]);

impl fmt::Display for Quoted<'_> {
    fn fmt<W: fmt::Write>(&self, f: &mut fmt::Formatter<W>) -> fmt::Result {
        f.write_str("\"")?;
        match from_utf8(self.0) {
            Ok(text) => show_text(f, text)?,
            Err(_) => show_bytes(f, self.0)?,
        }
        f.write_str("\"")
    }
}

// Not the library's escapes: those write controls and quotes in another way.
fn show_text<W: fmt::Write>(f: &mut fmt::Formatter<W>, text: &str) -> fmt::Result {
    for letter in text.chars() {
        match letter {
            '"' | '\\' => write!(f, "\\{letter}")?,
            // the controls of two bytes
            '\u{80}'..='\u{9f}' => write!(f, "\\xc2\\x{:02x}", letter as u32)?,
            '\0'..='\x1f' | '\x7f' => write!(f, "\\x{:02x}", letter as u32)?,
            _ => write!(f, "{letter}")?,
        }
    }
    Ok(())
}

fn show_bytes<W: fmt::Write>(f: &mut fmt::Formatter<W>, bytes: &[u8]) -> fmt::Result {
    for byte in bytes {
        match *byte {
            b'"' | b'\\' => write!(f, "\\{}", char::from(*byte))?,
            b' '..=b'~' => write!(f, "{}", char::from(*byte))?,
            _ => write!(f, "\\x{byte:02x}")?,
        }
    }
    Ok(())
}

// A number, which may be meant with a sign: nothing in the image tells.
#[derive(Clone, Copy)]
struct Counted(Width, u64);

impl fmt::Display for Counted {
    fn fmt<W: fmt::Write>(&self, f: &mut fmt::Formatter<W>) -> fmt::Result {
        let Counted(width, value) = *self;
        // the sign bit of its width goes to the top, and back
        let unused = 64 - 8 * width.bytes();
        let signed = (value << unused).cast_signed() >> unused;
        if signed < 0 {
            return write!(f, "{value} (signed: {signed})");
        }
        write!(f, "{value}")
    }
}

// A slot for a person, with the type of its node, which stands for a slot of which the kind alone is known. A text of its
// own: replay's words are fixed by what it answers, a person's are not.
#[derive(Clone, Copy)]
pub struct SlotShown<'a>(pub DataType, pub SlotValue<'a>);

impl fmt::Display for SlotShown<'_> {
    fn fmt<W: fmt::Write>(&self, f: &mut fmt::Formatter<W>) -> fmt::Result {
        let SlotShown(data_type, value) = *self;
        match value {
            SlotValue::Null => f.write_str("null"),
            SlotValue::Boolean(value) => write!(f, "boolean {value}"),
            SlotValue::Number(width, value) => write!(f, "number {}", Counted(width, value)),
            SlotValue::Float(width, bits) => write!(f, "float 0x{}", Bits(width, bits)),
            SlotValue::Text(part) => write!(f, "text {} {}", part.place, Quoted(part.bytes)),
            SlotValue::Binary(part) => write!(f, "binary {}", Placed(part)),
            SlotValue::View(part) => write!(f, "view {} {}", part.place, Quoted(part.bytes)),
            SlotValue::Kind(_) => write!(f, "{}", TypeName(data_type)),
        }
    }
}
