// Hashers under one key.
ghost use Rattle.std.specs.Prelude.{◌≡◌};
ghost use Rattle.hash_state.specs.Rounds.{finalize_below};
ghost use Rattle.hash_state.specs.Sip.{siphash};
ghost use Rattle.hash_state.specs.Writes.{joined};

use super::SipHasher;
use super::rounds::State;
use crate::hasher::{BuildHasher, HashState};

// The hash state of SipHash-2-4: the key of 128 bits, as two words.
#[derive(Clone, Copy)]
pub struct SipHashState {
    k0: u64,
    k1: u64,
}

impl SipHashState {
    // The state of a key: k0 is its first eight bytes, the lowest first, and k1 its last eight. Each key is one.
    pub fn new(k0: u64, k1: u64) -> SipHashState
        ensures first { result.k0 ≡ k0 }
        ensures second { result.k1 ≡ k1 }
    {
        SipHashState { k0, k1 }
    }
}

impl BuildHasher for SipHashState {
    type Hasher = SipHasher;

    ghost one = { λ s ws. siphash s.k0 s.k1 (joined ws) };

    ghost one_below = { unfold siphash in λ state ws. finalize_below _ };

    #[tactic(auto, using(crate::proofs::Streams::begun))]
    fn build_hasher(&self) -> SipHasher {
        SipHasher {
            state: State::keyed(self.k0, self.k1),
            tail: 0,
            length: 0,
        }
    }
}

// A seed takes the place of the first key word.
impl HashState for SipHashState {
    type SeededState = SipHashState;

    ghost seeded = { λ s seed ws. siphash seed s.k1 (joined ws) };

    ghost seeded_below = { unfold siphash in λ state s below ws. finalize_below _ };

    fn seeded_state(&self, seed: u64) -> SipHashState {
        SipHashState::new(seed, self.k1)
    }
}
