// The published vectors of FNV-1a and SipHash-2-4, each written to a hasher in several ways.
ghost use Rattle.std.specs.Prelude.{◌<◌, length};

use crate::tables;
use anyhow::anyhow;
use hash_state::{BuildHasher, Fnv1aState, Hasher, SipHashState};

// The words that a message is cut into, the narrowest first.
#[derive(Clone, Copy, PartialEq, Eq, PartialOrd, Ord)]
enum Word {
    U8,
    U16,
    U32,
    U64,
    Pair,
}

// How a message is written: so many single bytes, and the rest in words of at most a width, or as one byte string.
#[derive(Clone, Copy)]
struct Way(usize, Option<Word>);

const WAYS: [Way; 12] = [
    Way(0, None),
    Way(1, None),
    Way(5, None),
    Way(8, None),
    Way(0, Some(Word::U8)),
    Way(0, Some(Word::U16)),
    Way(3, Some(Word::U16)),
    Way(0, Some(Word::U32)),
    Way(7, Some(Word::U32)),
    Way(0, Some(Word::U64)),
    Way(2, Some(Word::U64)),
    Way(6, Some(Word::Pair)),
];

// Writes the widest word that is allowed and there, and answers the bytes after it. The widths are written out, since
// the borrow checker covers no closure over arrays whose length is a parameter.
fn write_word<'a, H: Hasher>(hasher: &mut H, bytes: &'a [u8], widest: Word) -> &'a [u8]
    requires { 0 < length bytes.now }
    ensures { length result.now < length bytes.now }
{
    if widest >= Word::Pair
        && let Some((pair, rest)) = bytes.split_first_chunk::<16>()
    {
        let pair = u128::from_le_bytes(*pair);
        hasher.write_pair((pair % (1 << 64)) as u64, (pair >> 64) as u64);
        return rest;
    }
    if widest >= Word::U64
        && let Some((word, rest)) = bytes.split_first_chunk::<8>()
    {
        hasher.write_u64(u64::from_le_bytes(*word));
        return rest;
    }
    if widest >= Word::U32
        && let Some((word, rest)) = bytes.split_first_chunk::<4>()
    {
        hasher.write_u32(u32::from_le_bytes(*word));
        return rest;
    }
    if widest >= Word::U16
        && let Some((word, rest)) = bytes.split_first_chunk::<2>()
    {
        hasher.write_u16(u16::from_le_bytes(*word));
        return rest;
    }
    hasher.write_u8(bytes[0]);
    &bytes[1..]
}

fn write_words<H: Hasher>(hasher: &mut H, bytes: &[u8], widest: Word) {
    let mut rest = bytes;
    while !rest.is_empty() {
        rest = write_word(hasher, rest, widest);
    }
}

// The hash of a message that is written in one of the ways.
fn hash_by<S: BuildHasher>(state: &S, message: &[u8], way: Way) -> u64 {
    let Way(single, widest) = way;
    let mut hasher = state.build_hasher();
    let (first, rest) = message.split_at(single.min(message.len()));
    write_words(&mut hasher, first, Word::U8);
    match widest {
        Some(widest) => write_words(&mut hasher, rest, widest),
        None => hasher.write(rest),
    }
    hasher.finish()
}

// In which of the ways a message has the hash.
fn agreeing<S: BuildHasher>(state: &S, message: &[u8], hash: u64) -> [bool; 12] {
    WAYS.map(|way| hash_by(state, message, way) == hash)
}

fn check_fnv1a() -> [[bool; 12]; 16] {
    let state = Fnv1aState::new();
    tables::FNV1A.map(|(message, hash)| agreeing(&state, message, hash))
}

fn check_siphash() -> [[bool; 12]; 64] {
    let state = SipHashState::new(0x0706050403020100, 0x0f0e0d0c0b0a0908);
    let message: [u8; 64] = std::array::from_fn(|n| n as u8);
    std::array::from_fn(|n| agreeing(&state, &message[..n], tables::SIPHASH[n]))
}

// Says how many agreed; it is an error if any did not.
fn report(rt: &impl Print, algorithm: &str, agreements: &[[bool; 12]]) -> anyhow::Result<()> {
    let vectors = agreements.len();
    let ways = WAYS.len();
    let hashes = agreements.as_flattened();
    let checked = hashes.len();
    let agreed = hashes.iter().filter(|agrees| **agrees).count();
    println!(rt;
        "{algorithm}: {vectors} vectors, each in {ways} ways: {agreed} of {checked} hashes agree"
    )?;
    if agreed < checked {
        return Err(anyhow!("a hash is not the published one"));
    }
    Ok(())
}

pub(crate) fn check(rt: &impl Print) -> anyhow::Result<()> {
    report(rt, "FNV-1a", &check_fnv1a())?;
    report(rt, "SipHash-2-4", &check_siphash())
}
