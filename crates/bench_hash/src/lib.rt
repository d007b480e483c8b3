// Hashing for C to call, so that it can be timed beside Rust's and compared with it.
#![tactic(auto)]

ghost use Rattle.std.specs.Prelude.{◌≡◌, [], ◌∷◌, ◌%◌, min, drop, take};
ghost use Rattle.bench_hash.specs.Kinds.{entry_of, kind_number, sip_seeded, sip_under};
ghost use Rattle.bench_hash.specs.Rows.{combined, rows};
ghost use Rattle.hash_state.specs.Fnv.{fnv1a};
ghost use Rattle.hash_state.specs.Sip.{siphash};
ghost use Rattle.hash_state.specs.Values.{number};
ghost use Rattle.hash_state.specs.Writes.{Bytes, joined};

use hash_state::{
    Binary, BuildHasher, Float, Fnv1aState, HashState, HashValue, Hasher, Nothing, SipHashState,
    Text, View, combine_hashes, hash_entry,
};

// The hashes of the words below n, combined one after another. An exclusive or of them lets the compilers of both sides
// hash two words at once, by instructions that take twice as long as one word after the other.
fn words<S: BuildHasher>(state: &S, n: u64) -> u64
    ensures { result ≡ combined (λ i. S.BuildHasher.one state.now (number 8 i)) n }
{
    (0..n).fold(0, |all, word| combine_hashes(all, word.hash_one(state)))
}

// The hashes of n byte strings, made one by exclusive or. The strings have `len` bytes, at most 16,000, and begin at the
// places 0 to 63 in turn.
fn strings<S: BuildHasher>(state: &S, bytes: &[u8; 16384], len: u64, n: u64) -> u64
    ensures { result ≡ rows (λ i. S.BuildHasher.one state.now (Bytes (take (min len 16000) (drop (i % 64) bytes.now)) ∷ [])) n }
{
    let len = len.min(16000) as usize;
    (0..n)
        .map(|i| {
            let start = (i % 64) as usize;
            let mut hasher = state.build_hasher();
            hasher.write(&bytes[start..start + len]);
            hasher.finish()
        })
        .fold(0, |all, string| all ^ string)
}

// FNV-1a of n words, from a start. Here and below there are two functions of each sort, since C has no generics.
#[unsafe(no_mangle)]
pub extern "C" fn rt_fnv_words(start: u64, n: u64) -> u64
    ensures { result ≡ combined (λ i. fnv1a start (joined (number 8 i))) n }
{
    words(&Fnv1aState::from_start(start), n)
}

// SipHash-2-4 of n words, under the two words of a key.
#[unsafe(no_mangle)]
pub extern "C" fn rt_sip_words(k0: u64, k1: u64, n: u64) -> u64
    ensures { result ≡ combined (λ i. siphash k0 k1 (joined (number 8 i))) n }
{
    words(&SipHashState::new(k0, k1), n)
}

// FNV-1a of n byte strings of `len` bytes each, from a start.
#[unsafe(no_mangle)]
pub extern "C" fn rt_fnv_strings(start: u64, bytes: &[u8; 16384], len: u64, n: u64) -> u64
    ensures { result ≡ rows (λ i. fnv1a start (joined (Bytes (take (min len 16000) (drop (i % 64) bytes.now)) ∷ []))) n }
{
    strings(&Fnv1aState::from_start(start), bytes, len, n)
}

// SipHash-2-4 of the same strings, under the two words of a key.
#[unsafe(no_mangle)]
pub extern "C" fn rt_sip_strings(k0: u64, k1: u64, bytes: &[u8; 16384], len: u64, n: u64) -> u64
    ensures { result ≡ rows (λ i. siphash k0 k1 (joined (Bytes (take (min len 16000) (drop (i % 64) bytes.now)) ∷ []))) n }
{
    strings(&SipHashState::new(k0, k1), bytes, len, n)
}

// The hash of a value that is made of the two words, or of as many of the bytes as the low word says. The kind is a
// number, since C calls with it.
fn hash_kind<S: HashState>(
    state: &S,
    before: Option<u64>,
    kind: u8,
    low: u64,
    high: u64,
    bytes: &[u8; 16384],
) -> u64
    ensures { result ≡ kind_number (S.BuildHasher.one state.now) (S.HashState.seeded state.now) before kind low high (take (min low 16384) bytes.now) }
{
    let part = &bytes[0..low.min(16384) as usize];
    match kind {
        0 => hash_entry(&(low % 2 == 1), state, before),
        1 => hash_entry(&((low % 256) as u8), state, before),
        2 => hash_entry(&((low % 65536) as u16), state, before),
        3 => hash_entry(&((low % 4294967296) as u32), state, before),
        4 => hash_entry(&low, state, before),
        5 => hash_entry(&Float((low % 65536) as u16), state, before),
        6 => hash_entry(&Float((low % 4294967296) as u32), state, before),
        7 => hash_entry(&Float(low), state, before),
        8 => hash_entry(&Text(part), state, before),
        9 => hash_entry(&Binary(part), state, before),
        10 => hash_entry(&View::Inline(low, high), state, before),
        11 => hash_entry(&View::Long(part), state, before),
        _ => hash_entry(&Nothing, state, before),
    }
}

// The entry that two numbers say: none unless the first is 1, else the second. C has no `Option`.
fn entry(before: &[u64; 2]) -> Option<u64>
    ensures { result ≡ entry_of before.now }
{
    (before[0] == 1).then_some(before[1])
}

// FNV-1a of one value, from a start: with no column before it, or after an entry, as `before` says.
#[unsafe(no_mangle)]
pub extern "C" fn rt_fnv_kind(
    start: u64,
    before: &[u64; 2],
    kind: u8,
    low: u64,
    high: u64,
    bytes: &[u8; 16384],
) -> u64
    ensures { result ≡ kind_number (λ ws. fnv1a start (joined ws)) (λ seed ws. fnv1a seed (joined ws)) (entry_of before.now) kind low high (take (min low 16384) bytes.now) }
{
    hash_kind(
        &Fnv1aState::from_start(start),
        entry(before),
        kind,
        low,
        high,
        bytes,
    )
}

// SipHash-2-4 of the same value, under the two words of a key.
#[unsafe(no_mangle)]
pub extern "C" fn rt_sip_kind(
    keys: &[u64; 2],
    before: &[u64; 2],
    kind: u8,
    low: u64,
    high: u64,
    bytes: &[u8; 16384],
) -> u64
    ensures { result ≡ kind_number (sip_under keys.now) (sip_seeded keys.now) (entry_of before.now) kind low high (take (min low 16384) bytes.now) }
{
    hash_kind(
        &SipHashState::new(keys[0], keys[1]),
        entry(before),
        kind,
        low,
        high,
        bytes,
    )
}
