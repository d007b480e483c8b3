// SipHash-2-4 as a hasher.
ghost use Rattle.std.specs.Prelude.{◌*◌, ◌%◌, ◌^◌, ◌<◌};

mod keys;
mod read;
mod rounds;
mod stream;

pub use keys::SipHashState;
use rounds::State;

// A hasher of SipHash-2-4, as Aumasson and Bernstein publish it: two rounds for each word of eight bytes, four at the
// end.
#[derive(Clone, Copy)]
pub struct SipHasher {
    state: State,
    // The bytes that wait until they are a word, the first lowest.
    tail: u64,
    // How many bytes were written, modulo 2^64.
    length: u64,
    ghost low: { tail < 2 ^ (8 * (length % 8)) },
}
