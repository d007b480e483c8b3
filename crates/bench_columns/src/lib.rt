// Columns hashed for C to call, so that they can be timed beside Rust's and compared with it.
#![tactic(auto)]

ghost use Rattle.std.specs.Prelude.{◌≡◌, true, None, length};
ghost use Rattle.bench_columns.specs.Times.{can_hash, fits, repeated, timed_words};
ghost use Rattle.columns.specs.Column.{column_words};
ghost use Rattle.hash_state.specs.Fnv.{fnv1a};
ghost use Rattle.hash_state.specs.Sip.{siphash};
ghost use Rattle.hash_state.specs.Writes.{joined};

use columns::{Selection, hash_column, node_need};
use hash_state::{Fnv1aState, HashState, SipHashState};
use image::place::Image;

// Whether so many entries and words of work are enough for a node.
fn is_fitting(image: &Image<'_>, node: u64, entries: usize, work: usize) -> bool
    ensures { result ≡ fits image.now.bytes.now node entries work }
{
    let Some(r) = image.node(node) else {
        return false;
    };
    let Some(words) = node_need(image, node) else {
        return false;
    };
    r.rows as usize <= entries && words as usize <= work
}

// What of an image is to be hashed: all rows of a node, as a first column or a later one, and how many times over.
#[repr(C)]
#[derive(Clone, Copy)]
pub struct Timed {
    pub node: u64,
    pub first: bool,
    pub times: u64,
}

// A node's column, so many times.
fn hash_times<S: HashState>(
    state: &S,
    image: &Image<'_>,
    timed: Timed,
    entries: &mut [u64],
    work: &mut [u64],
)
    requires { fits image.now.bytes.now timed.node (length entries.old) (length work.old) ≡ true }
    ensures { entries.new ≡ repeated timed.times (column_words (S.BuildHasher.one state.now) (S.HashState.seeded state.now) image.now.bytes.now timed.node None timed.first) entries.old }
{
    let selection = Selection {
        image,
        node: timed.node,
        list: None,
    };
    for turn in 0..timed.times {
        hash_column(selection, timed.first, state, entries, work, 0);
    }
}

// The same of an image's bytes, if they are one and what is lent is enough; else nothing, and `false`.
fn hash_image<S: HashState>(
    state: &S,
    bytes: &[u8],
    timed: Timed,
    entries: &mut [u64],
    work: &mut [u64],
) -> bool
    ensures answer { result ≡ can_hash bytes.now timed.node (length entries.old) (length work.old) }
    ensures entries { entries.new ≡ timed_words (S.BuildHasher.one state.now) (S.HashState.seeded state.now) bytes.now timed entries.old (length work.old) }
{
    let mut image = Image::empty();
    let Ok(()) = image.admit(bytes) else {
        return false;
    };
    if !is_fitting(&image, timed.node, entries.len(), work.len()) {
        return false;
    }
    hash_times(state, &image, timed, entries, work);
    true
}

// Two functions, since C has no generics. Of the bytes of an image, entries and work, answers whether they are an image
// without a fault whose node has no more rows than there are entries and no more need than there are words of work. If
// so, the first entries, as many as the node has rows, are hashed; else nothing is written.
#[unsafe(no_mangle)]
pub extern "C" fn rt_fnv_column(
    start: u64,
    bytes: &[u8],
    timed: &Timed,
    entries: &mut [u64],
    work: &mut [u64],
) -> bool
    ensures answer { result ≡ can_hash bytes.now timed.now.node (length entries.old) (length work.old) }
    ensures entries { entries.new ≡ timed_words (λ ws. fnv1a start (joined ws)) (λ seed ws. fnv1a seed (joined ws)) bytes.now timed.now entries.old (length work.old) }
{
    hash_image(&Fnv1aState::from_start(start), bytes, *timed, entries, work)
}

// The same under SipHash-2-4 with the key words `k0` and `k1`.
#[unsafe(no_mangle)]
pub extern "C" fn rt_sip_column(
    k0: u64,
    k1: u64,
    bytes: &[u8],
    timed: &Timed,
    entries: &mut [u64],
    work: &mut [u64],
) -> bool
    ensures answer { result ≡ can_hash bytes.now timed.now.node (length entries.old) (length work.old) }
    ensures entries { entries.new ≡ timed_words (λ ws. siphash k0 k1 (joined ws)) (λ seed ws. siphash seed k1 (joined ws)) bytes.now timed.now entries.old (length work.old) }
{
    hash_image(&SipHashState::new(k0, k1), bytes, *timed, entries, work)
}
