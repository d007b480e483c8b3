// Little-endian numbers and bits, read where they stand: one load for one number.
ghost use Rattle.std.specs.Prelude.{◌≡◌, ℕ, ◌+◌, ◌*◌, ◌/◌, ◌<◌, ◌≤◌, length};
ghost use Rattle.layout.specs.Bytes.{bit, field, negative, wide};
ghost use Rattle.layout.specs.Nodes.{element};
ghost use Rattle.layout.specs.declared.bytes.Width.{Width};
ghost use Rattle.layout.specs.declared.bytes.Width.TheVariants.{One, Two, Four, Eight};

// How many bytes a number, an offset, a key or a run end has.
#[derive(Clone, Copy)]
pub enum Width {
    One,
    Two,
    Four,
    Eight,
}

impl Width {
    // The bytes of a number of this width.
    pub fn bytes(self) -> u32
        ensures { result ≡ wide self }
    {
        match self {
            Width::One => 1,
            Width::Two => 2,
            Width::Four => 4,
            Width::Eight => 8,
        }
    }

    // Whether a number of this width has its sign bit set.
    pub fn negative(self, value: u64) -> bool
        ensures { result ≡ negative self value }
    {
        match self {
            Width::One => value >= 0x80,
            Width::Two => value >= 0x8000,
            Width::Four => value >= 0x8000_0000,
            Width::Eight => value >= 0x8000_0000_0000_0000,
        }
    }
}

// Unsigned numbers as they stand in an image, the lowest byte first. An impl for each width: how many bytes there are is
// part of an array's type.
pub trait Native: Sized {
    ghost width: { Width };

    ghost value: { Self → ℕ };

    // The number that stands at a place, all of which is inside.
    fn load(bytes: &[u8], place: usize) -> Self
        requires { place + wide width ≤ length bytes.now }
        ensures { value result ≡ field (wide width) bytes.now place };
}

impl Native for u8 {
    ghost width = { One };

    ghost value = { λ n. n };

    fn load(bytes: &[u8], place: usize) -> u8 {
        u8::from_le_bytes([bytes[place]])
    }
}

impl Native for u16 {
    ghost width = { Two };

    ghost value = { λ n. n };

    fn load(bytes: &[u8], place: usize) -> u16 {
        u16::from_le_bytes([bytes[place], bytes[place + 1]])
    }
}

impl Native for u32 {
    ghost width = { Four };

    ghost value = { λ n. n };

    fn load(bytes: &[u8], place: usize) -> u32 {
        u32::from_le_bytes([
            bytes[place],
            bytes[place + 1],
            bytes[place + 2],
            bytes[place + 3],
        ])
    }
}

impl Native for u64 {
    ghost width = { Eight };

    ghost value = { λ n. n };

    fn load(bytes: &[u8], place: usize) -> u64 {
        u64::from_le_bytes([
            bytes[place],
            bytes[place + 1],
            bytes[place + 2],
            bytes[place + 3],
            bytes[place + 4],
            bytes[place + 5],
            bytes[place + 6],
            bytes[place + 7],
        ])
    }
}

// The number of a width that stands at a place.
pub fn word_at(width: Width, bytes: &[u8], place: usize) -> u64
    requires { place + wide width ≤ length bytes.now }
    ensures { result ≡ field (wide width) bytes.now place }
{
    match width {
        Width::One => u64::from(u8::load(bytes, place)),
        Width::Two => u64::from(u16::load(bytes, place)),
        Width::Four => u64::from(u32::load(bytes, place)),
        Width::Eight => u64::load(bytes, place),
    }
}

// A bit of a bitmap, the lowest of a byte first.
pub fn bit_at(bytes: &[u8], place: usize, index: usize) -> bool
    requires { place + index / 8 < length bytes.now }
    ensures { result ≡ bit bytes.now place index }
{
    (bytes[place + index / 8] >> (index % 8)) % 2 == 1
}

// An element of a buffer of numbers of one width.
pub fn element_at(width: Width, bytes: &[u8], place: usize, index: usize) -> u64
    requires { place + wide width * index + wide width ≤ length bytes.now }
    ensures { result ≡ element width bytes.now place index }
{
    word_at(width, bytes, place + width.bytes() as usize * index)
}
