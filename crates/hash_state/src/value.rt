// The values that are hashed.
ghost use Rattle.std.specs.Prelude.{◌≡◌, ℕ, Bool, true, false, List, ◌∷◌, ◌++◌};
ghost use Rattle.hash_state.specs.Combine.{entry_number, later};
ghost use Rattle.hash_state.specs.Values.{boolean, number, float_bits, float, seeded_float, text, binary, nothing};
ghost use Rattle.hash_state.specs.View.{view};
ghost use Rattle.hash_state.specs.Writes.{Write, Word, Bytes, le_bytes};

use crate::combine::combine_hashes;
use crate::hasher::{BuildHasher, HashState, Hasher};

// What a later column does with a value: it seeds a state with its entry and tells it the value, or it combines the
// value's own hash with its entry. They are truth values, since `later` of the definitions takes one.
const SEEDS: bool = true;

const COMBINES: bool = false;

// A value that a column can hold: what it tells a hasher, as Rust's `Hash` does, and what a later column does with it.
pub trait HashValue {
    // What the value tells a hasher under ONE.
    ghost writes: { Self → List Write };

    // What it tells a hasher under SEED.
    ghost seed_writes: { Self → List Write };

    // Whether a later column seeds with its entry; else it combines.
    ghost seeding: { Bool };

    // The same as a truth value.
    fn seeds() -> bool
        ensures { result ≡ seeding };

    // Tells a hasher the value, where no seed is.
    fn hash<H: Hasher>(&self, hasher: &mut H)
        ensures { (ws : List Write) → H.Hasher.meaning hasher.new ws ≡ H.Hasher.meaning hasher.old (writes self.now ++ ws) };

    // Tells a hasher from a seed the value.
    fn hash_write<H: Hasher>(&self, hasher: &mut H)
        ensures { (ws : List Write) → H.Hasher.meaning hasher.new ws ≡ H.Hasher.meaning hasher.old (seed_writes self.now ++ ws) };

    // The value's own number: ONE of what it tells.
    #[inline(always)]
    fn hash_one<S: BuildHasher>(&self, state: &S) -> u64
        ensures { result ≡ S.BuildHasher.one state.now (writes self.now) }
    {
        let mut hasher = state.build_hasher();
        self.hash(&mut hasher);
        hasher.finish()
    }
}

// The hash of a value in a later column, where the entry, any word of 64 bits, stands for the columns before.
#[inline(always)]
pub fn hash_later<V: HashValue, S: HashState>(value: &V, state: &S, entry: u64) -> u64
    ensures { result ≡ later V.HashValue.seeding (S.HashState.seeded state.now entry (V.HashValue.seed_writes value.now)) (S.BuildHasher.one state.now (V.HashValue.writes value.now)) entry }
{
    if V::seeds() {
        let seeded = state.seeded_state(entry);
        let mut hasher = seeded.build_hasher();
        value.hash_write(&mut hasher);
        return hasher.finish();
    }
    combine_hashes(value.hash_one(state), entry)
}

// The hash of a value in a column, where the entry stands for the columns before, if there are any.
pub fn hash_entry<V: HashValue, S: HashState>(value: &V, state: &S, before: Option<u64>) -> u64
    ensures { result ≡ entry_number (S.BuildHasher.one state.now) (S.HashState.seeded state.now) before V.HashValue.seeding (V.HashValue.writes value.now) (V.HashValue.seed_writes value.now) }
{
    match before {
        None => value.hash_one(state),
        Some(entry) => hash_later(value, state, entry),
    }
}

// A value that tells a hasher the same with and without a seed.
pub trait PlainValue {
    // What it tells.
    ghost told: { Self → List Write };

    // Whether a later column seeds with its entry; else it combines.
    ghost seeding: { Bool };

    // The same as a truth value. A function, since the check gives a trait's constant no clause where the type has a
    // lifetime.
    fn later() -> bool
        ensures { result ≡ seeding };

    // Tells a hasher the value.
    fn tell<H: Hasher>(&self, hasher: &mut H)
        ensures { (ws : List Write) → H.Hasher.meaning hasher.new ws ≡ H.Hasher.meaning hasher.old (told self.now ++ ws) };
}

impl<T: PlainValue> HashValue for T {
    ghost writes = { T.PlainValue.told };

    ghost seed_writes = { T.PlainValue.told };

    ghost seeding = { T.PlainValue.seeding };

    fn seeds() -> bool {
        T::later()
    }

    // As the trait has it, but in its caller's place: a hasher that a call takes goes through memory.
    #[inline(always)]
    fn hash_one<S: BuildHasher>(&self, state: &S) -> u64 {
        let mut hasher = state.build_hasher();
        self.tell(&mut hasher);
        hasher.finish()
    }

    #[inline(always)]
    fn hash<H: Hasher>(&self, hasher: &mut H) {
        self.tell(hasher);
    }

    #[inline(always)]
    fn hash_write<H: Hasher>(&self, hasher: &mut H) {
        self.tell(hasher);
    }
}

// A Boolean: the byte 0 or 1.
impl PlainValue for bool {
    ghost told = { boolean };

    ghost seeding = { false };

    fn later() -> bool {
        COMBINES
    }

    fn tell<H: Hasher>(&self, hasher: &mut H) {
        hasher.write_u8(*self as u8);
    }
}

// An unsigned number, which is written as one word. An impl for each width, as a hasher has a method for each.
pub trait Integer: Copy {
    // How many bytes it has.
    ghost width: { ℕ };

    // The number itself.
    ghost bits: { Self → ℕ };

    // Tells a hasher the number as one word of that width.
    fn write_word<H: Hasher>(self, hasher: &mut H)
        ensures { (ws : List Write) → H.Hasher.meaning hasher.new ws ≡ H.Hasher.meaning hasher.old (Word width (bits self) ∷ ws) };
}

impl Integer for u8 {
    ghost width = { 1 };

    ghost bits = { λ v. v };

    fn write_word<H: Hasher>(self, hasher: &mut H) {
        hasher.write_u8(self);
    }
}

impl Integer for u16 {
    ghost width = { 2 };

    ghost bits = { λ v. v };

    fn write_word<H: Hasher>(self, hasher: &mut H) {
        hasher.write_u16(self);
    }
}

impl Integer for u32 {
    ghost width = { 4 };

    ghost bits = { λ v. v };

    fn write_word<H: Hasher>(self, hasher: &mut H) {
        hasher.write_u32(self);
    }
}

impl Integer for u64 {
    ghost width = { 8 };

    ghost bits = { λ v. v };

    fn write_word<H: Hasher>(self, hasher: &mut H) {
        hasher.write_u64(self);
    }
}

// A whole number, signed ones by their bits: one word.
impl<T: Integer> PlainValue for T {
    ghost told = { λ v. number T.Integer.width (T.Integer.bits v) };

    ghost seeding = { true };

    fn later() -> bool {
        SEEDS
    }

    fn tell<H: Hasher>(&self, hasher: &mut H) {
        self.write_word(hasher);
    }
}

// A number that is the bits of a float. Both functions stand at each width, as laws that tie a constant to the sign bit
// and an array's length to the width would take more text than the bodies.
pub trait FloatBits: Integer {
    // The zeros of both signs are equal, so both are hashed as 0.
    fn plain(self) -> Self
        ensures { Self.Integer.bits result ≡ float_bits Self.Integer.width (Self.Integer.bits self) };

    // Its bytes, the lowest first, as a byte string.
    fn write_bytes<H: Hasher>(self, hasher: &mut H)
        ensures { (ws : List Write) → H.Hasher.meaning hasher.new ws ≡ H.Hasher.meaning hasher.old (Bytes (le_bytes Self.Integer.width (Self.Integer.bits self)) ∷ ws) };
}

impl FloatBits for u16 {
    fn plain(self) -> u16 {
        if self == 0x8000 { 0 } else { self }
    }

    fn write_bytes<H: Hasher>(self, hasher: &mut H) {
        hasher.write(&u16::to_le_bytes(self));
    }
}

impl FloatBits for u32 {
    fn plain(self) -> u32 {
        if self == 0x8000_0000 { 0 } else { self }
    }

    fn write_bytes<H: Hasher>(self, hasher: &mut H) {
        hasher.write(&u32::to_le_bytes(self));
    }
}

impl FloatBits for u64 {
    fn plain(self) -> u64 {
        if self == 0x8000_0000_0000_0000 {
            0
        } else {
            self
        }
    }

    fn write_bytes<H: Hasher>(self, hasher: &mut H) {
        hasher.write(&u64::to_le_bytes(self));
    }
}

// A float of IEEE 754 by its bits, a number of 2, 4 or 8 bytes. Each bit pattern is one: NaNs are hashed by their bits,
// and the zeros of both signs alike.
#[derive(Clone, Copy)]
pub struct Float<T>(pub T);

// A float of 2 bytes.
pub type Float16 = Float<u16>;

// A float of 4 bytes.
pub type Float32 = Float<u32>;

// A float of 8 bytes.
pub type Float64 = Float<u64>;

impl<T: FloatBits> HashValue for Float<T> {
    ghost writes = { λ v. float T.Integer.width (T.Integer.bits v.0) };

    ghost seed_writes = { λ v. seeded_float T.Integer.width (T.Integer.bits v.0) };

    ghost seeding = { true };

    fn seeds() -> bool {
        SEEDS
    }

    fn hash<H: Hasher>(&self, hasher: &mut H) {
        self.0.plain().write_word(hasher);
    }

    fn hash_write<H: Hasher>(&self, hasher: &mut H) {
        self.0.plain().write_bytes(hasher);
    }
}

// A text by its bytes of UTF-8. It tells them and then the byte 255, as Rust's `str` does; nothing asks that they are
// UTF-8.
#[derive(Clone, Copy)]
pub struct Text<'a>(pub &'a [u8]);

impl PlainValue for Text<'_> {
    ghost told = { λ t. text t.0.now };

    ghost seeding = { false };

    fn later() -> bool
        ensures { result ≡ false }
    {
        COMBINES
    }

    fn tell<H: Hasher>(&self, hasher: &mut H) {
        hasher.write(self.0);
        hasher.write_u8(255);
    }
}

// A byte string. It tells its length as a word of 8 bytes, and then its bytes, as Rust's `[u8]` does.
#[derive(Clone, Copy)]
pub struct Binary<'a>(pub &'a [u8]);

impl PlainValue for Binary<'_> {
    ghost told = { λ b. binary b.0.now };

    ghost seeding = { false };

    fn later() -> bool
        ensures { result ≡ false }
    {
        COMBINES
    }

    #[inline(always)]
    fn tell<H: Hasher>(&self, hasher: &mut H) {
        hasher.write_u64(self.0.len() as u64);
        hasher.write(self.0);
    }
}

// A view of a text or a byte string. Which of the two it is, is for its maker.
#[derive(Clone, Copy)]
pub enum View<'a> {
    // Of up to 12 bytes, which the view itself holds: its own 16 bytes as two words, the low one first.
    Inline(u64, u64),
    // Of more: the bytes that it views.
    Long(&'a [u8]),
}

impl PlainValue for View<'_> {
    ghost told = { view };

    ghost seeding = { true };

    fn later() -> bool
        ensures { result ≡ true }
    {
        SEEDS
    }

    #[inline(always)]
    fn tell<H: Hasher>(&self, hasher: &mut H) {
        match self {
            View::Inline(low, high) => hasher.write_pair(*low, *high),
            View::Long(bytes) => Binary(bytes).tell(hasher),
        }
    }
}

// The value of a column of the Null type, which has none: the 4-byte word 1.
#[derive(Clone, Copy)]
pub struct Nothing;

impl PlainValue for Nothing {
    ghost told = { λ _. nothing };

    ghost seeding = { false };

    fn later() -> bool {
        COMBINES
    }

    fn tell<H: Hasher>(&self, hasher: &mut H) {
        hasher.write_u32(1);
    }
}
