// What the slot reader answers.
ghost use Rattle.std.specs.Prelude.{◌≡◌};
ghost use Rattle.image.specs.Values.{refusal};

use layout::bytes::Width;
use layout::kind::Kind;

// A part of the image, with its place in bytes from the image's first.
#[derive(Clone, Copy)]
pub struct Part<'a> {
    pub place: usize,
    pub bytes: &'a [u8],
}

// A slot as it is handed out: the null mark; a value, with its width where it has one; bytes as a part of the image; of a
// row of the Null type, or of one that stands for other rows, the kind alone.
#[derive(Clone, Copy)]
pub enum SlotValue<'a> {
    Null,
    Boolean(bool),
    Number(Width, u64),
    Float(Width, u64),
    Text(Part<'a>),
    Binary(Part<'a>),
    View(Part<'a>),
    Kind(Kind),
}

// Why no slot is handed out: there is no such node, or it has no such row.
#[derive(Clone, Copy, Debug)]
pub enum SlotFault {
    NoNode,
    NoRow,
}

impl SlotFault {
    // The rejection's number, 13 or 17.
    pub fn number(self) -> u32
        ensures { result ≡ refusal self }
    {
        match self {
            SlotFault::NoNode => 13,
            SlotFault::NoRow => 17,
        }
    }
}
