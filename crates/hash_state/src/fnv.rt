// FNV-1a as a hasher.
ghost use Rattle.std.specs.Prelude.{◌≡◌, ◌^◌, ◌<◌};
ghost use Rattle.hash_state.specs.Fnv.{fnv1a, offset_basis, step};
ghost use Rattle.hash_state.specs.Hashing.{fnv1a_below};
ghost use Rattle.hash_state.specs.Writes.{joined};

use crate::hasher::{BuildHasher, HashState, Hasher};

// A hasher of FNV-1a with 64 bits, as Fowler, Noll and Vo publish it: the hash so far, into which each byte goes by an
// exclusive or and a product. Its writes stand where they are called, so that the hash stays in a register through a
// row.
#[derive(Clone, Copy)]
pub struct Fnv1aHasher {
    hash: u64,
}

// One byte more.
fn step(hash: u64, byte: u8) -> u64
    ensures { result ≡ step hash byte }
{
    (hash ^ u64::from(byte)).wrapping_mul(1099511628211)
}

// The bytes, one after another.
#[inline(always)]
fn hashed(hash: u64, bytes: &[u8]) -> u64
    ensures { result ≡ fnv1a hash bytes.now }
{
    bytes.iter().fold(hash, |hash, byte| step(hash, *byte))
}

// The same of a string. If its length is odd, a byte goes first, which is chosen without a branch; then two pairs a turn,
// and the loop may end after either. So two bytes share a comparison, and of strings of any length only the end of the
// loop is mispredicted. The compiler unrolls a loop of one pair a turn, which then ends twice.
#[inline(always)]
fn hashed_string(hash: u64, bytes: &[u8]) -> u64
    ensures { result ≡ fnv1a hash bytes.now }
{
    let [first, ..] = bytes else { return hash };
    let odd = bytes.len() % 2;
    let one = step(hash, *first);
    let mut hash = if odd == 1 { one } else { hash };
    let mut rest = &bytes[odd..];
    while let [a, b, after @ ..] = rest {
        hash = step(step(hash, *a), *b);
        let [c, d, after @ ..] = after else { break };
        hash = step(step(hash, *c), *d);
        rest = after;
    }
    hash
}

impl Hasher for Fnv1aHasher {
    ghost meaning = { λ h ws. fnv1a h.hash (joined ws) };

    // Words go in by their bytes, the lowest first.
    #[inline(always)]
    fn write_u8(&mut self, v: u8) {
        self.hash = hashed(self.hash, &[v]);
    }

    #[inline(always)]
    fn write_u16(&mut self, v: u16) {
        self.hash = hashed(self.hash, &u16::to_le_bytes(v));
    }

    #[inline(always)]
    fn write_u32(&mut self, v: u32) {
        self.hash = hashed(self.hash, &u32::to_le_bytes(v));
    }

    #[inline(always)]
    #[tactic(auto, using(crate::proofs::Bytes::eight_bytes))]
    fn write_u64(&mut self, v: u64) {
        self.hash = hashed(self.hash, &u64::to_le_bytes(v));
    }

    #[inline(always)]
    fn write_pair(&mut self, low: u64, high: u64) {
        self.write_u64(low);
        self.write_u64(high);
    }

    #[inline(always)]
    fn write(&mut self, bytes: &[u8]) {
        self.hash = hashed_string(self.hash, bytes);
    }

    fn finish(&self) -> u64 {
        self.hash
    }
}

// The hash state of FNV-1a: its hashers start at one number of 64 bits, which the publication calls the offset basis.
#[derive(Clone, Copy)]
pub struct Fnv1aState {
    start: u64,
    ghost word: { start < 2 ^ 64 },
}

impl Fnv1aState {
    // The start that is published, 14695981039346656037.
    pub fn new() -> Fnv1aState
        ensures { result.start ≡ offset_basis }
    {
        Fnv1aState::from_start(14695981039346656037)
    }

    // Any start; each word of 64 bits is one.
    pub fn from_start(start: u64) -> Fnv1aState
        ensures { result.start ≡ start }
    {
        Fnv1aState { start }
    }
}

impl BuildHasher for Fnv1aState {
    type Hasher = Fnv1aHasher;

    ghost one = { λ s ws. fnv1a s.start (joined ws) };

    ghost one_below = { λ state ws. fnv1a_below (joined ws) state.start state.word };

    fn build_hasher(&self) -> Fnv1aHasher {
        Fnv1aHasher { hash: self.start }
    }
}

// A seed takes the place of the start.
impl HashState for Fnv1aState {
    type SeededState = Fnv1aState;

    ghost seeded = { λ _ seed ws. fnv1a seed (joined ws) };

    ghost seeded_below = { λ state s below ws. fnv1a_below (joined ws) s below };

    fn seeded_state(&self, seed: u64) -> Fnv1aState {
        Fnv1aState::from_start(seed)
    }
}
