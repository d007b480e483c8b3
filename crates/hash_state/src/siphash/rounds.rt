// The four words of SipHash's internal state, and its rounds.
ghost use Rattle.std.specs.Prelude.{◌≡◌, ℕ, List, ◌++◌};
ghost use Rattle.std.specs.List.{flat_map};
ghost use Rattle.hash_state.specs.Sip.{compress, finalize, initial, sip_round};
ghost use Rattle.hash_state.specs.Stream.{finished, seen};

use super::read::word;

// The internal state: four words of 64 bits.
#[derive(Clone, Copy)]
pub struct State {
    v0: u64,
    v1: u64,
    v2: u64,
    v3: u64,
}

impl State {
    // The state of a key, before any word.
    #[tactic(auto, unfolding(crate::specs::Sip::initial))]
    pub fn keyed(k0: u64, k1: u64) -> State
        ensures { seen result ≡ initial k0 k1 }
    {
        State {
            v0: k0 ^ 0x736f6d6570736575,
            v1: k1 ^ 0x646f72616e646f6d,
            v2: k0 ^ 0x6c7967656e657261,
            v3: k1 ^ 0x7465646279746573,
        }
    }

    // The halves of the round stand side by side, so that the processor runs them at once.
    fn turned(self) -> State
        ensures { seen result ≡ sip_round (seen self) }
    {
        let a0 = self.v0.wrapping_add(self.v1);
        let a2 = self.v2.wrapping_add(self.v3);
        let a1 = self.v1.rotate_left(13) ^ a0;
        let a3 = self.v3.rotate_left(16) ^ a2;
        let b2 = a2.wrapping_add(a1);
        let b0 = a0.rotate_left(32).wrapping_add(a3);
        State {
            v0: b0,
            v1: a1.rotate_left(17) ^ b2,
            v2: b2.rotate_left(32),
            v3: a3.rotate_left(21) ^ b0,
        }
    }

    // The state after one word of the message.
    #[tactic(auto, unfolding(crate::specs::Sip::compress))]
    pub fn compressed(self, m: u64) -> State
        ensures { seen result ≡ compress (seen self) m }
    {
        let told = State {
            v3: self.v3 ^ m,
            ..self
        };
        let t = told.turned().turned();
        State { v0: t.v0 ^ m, ..t }
    }

    // The hash, once the last word is in.
    #[tactic(auto, unfolding(crate::specs::Sip::finalize))]
    pub fn finalized(self) -> u64
        ensures { result ≡ finalize (seen self) }
    {
        let closing = State {
            v2: self.v2 ^ 255,
            ..self
        };
        let t = closing.turned().turned().turned().turned();
        t.v0 ^ t.v1 ^ t.v2 ^ t.v3
    }

    // The state after whole words.
    #[tactic(auto, using(crate::proofs::Streams::stepped))]
    pub fn through(self, words: &[[u8; 8]]) -> State
        ensures { (z : ℕ) (bs : List ℕ) → finished (seen result) z bs ≡ finished (seen self) z (flat_map (λ word. word) words.now ++ bs) }
    {
        let mut state = self;
        for bytes in words {
            state = state.compressed(word(bytes));
        }
        state
    }
}
