// What the writes do to a hasher.
use super::SipHasher;
use super::read::{end, short};
use crate::hasher::Hasher;

impl SipHasher {
    ghost use Rattle.std.specs.Prelude.{◌≡◌, ℕ, ◌+◌, ◌*◌, ◌%◌, ◌^◌, ◌<◌, ◌≤◌, List, ◌++◌};
    ghost use Rattle.hash_state.specs.Stream.{told};
    ghost use Rattle.hash_state.specs.Writes.{le_bytes};

    // The hasher once it was told the low `width` bytes of `v`.
    fn pushed(self, width: u64, v: u64) -> SipHasher
        requires narrow { width ≤ 8 }
        requires low { v < 2 ^ (8 * width) }
        ensures count { result.length ≡ (self.length + width) % 2 ^ 64 }
        ensures told { (bs : List ℕ) → told result bs ≡ told self (le_bytes width v ++ bs) }
    {
        let count = self.length % 8;
        let full = self.tail | (v << (8 * count));
        let length = self.length.wrapping_add(width);
        if count + width < 8 {
            return SipHasher {
                state: self.state,
                tail: full,
                length,
            };
        }
        SipHasher {
            state: self.state.compressed(full),
            tail: (v >> (56 - 8 * count)) >> 8,
            length,
        }
    }

    // Tells it bytes when none wait.
    fn write_whole(&mut self, bytes: &[u8])
        requires { self.old.length % 8 ≡ 0 }
        ensures { (bs : List ℕ) → told self.new bs ≡ told self.old (bytes.now ++ bs) }
    {
        self.length = self.length.wrapping_add(bytes.len() as u64);
        let Some(last) = bytes.last_chunk::<8>() else {
            self.tail = short(bytes);
            return;
        };
        let (words, rest) = bytes.as_chunks::<8>();
        // the words come last, so that the loop over them holds little besides the state
        self.tail = end(last, rest.len());
        self.state = self.state.through(words);
    }

    // Tells it bytes when some wait: the first of them fill the word. It stays a function of its own, so that its
    // caller holds no registers for it.
    #[inline(never)]
    fn write_after(&mut self, bytes: &[u8])
        requires { 0 < self.old.length % 8 }
        ensures { (bs : List ℕ) → told self.new bs ≡ told self.old (bytes.now ++ bs) }
    {
        let missing = 8 - self.length % 8;
        let Some((first, rest)) = bytes.split_at_checked(missing as usize) else {
            *self = self.pushed(bytes.len() as u64, short(bytes));
            return;
        };
        *self = self.pushed(missing, short(first));
        self.write_whole(rest);
    }
}

impl Hasher for SipHasher {
    ghost use Rattle.hash_state.specs.Stream.{told};
    ghost use Rattle.hash_state.specs.Writes.{joined};

    ghost meaning = { λ h ws. told h (joined ws) };

    // Words go in by their bytes, the lowest first.
    fn write_u8(&mut self, v: u8) {
        *self = self.pushed(1, u64::from(v));
    }

    fn write_u16(&mut self, v: u16) {
        *self = self.pushed(2, u64::from(v));
    }

    fn write_u32(&mut self, v: u32) {
        *self = self.pushed(4, u64::from(v));
    }

    fn write_u64(&mut self, v: u64) {
        *self = self.pushed(8, v);
    }

    fn write_pair(&mut self, low: u64, high: u64) {
        *self = self.pushed(8, low).pushed(8, high);
    }

    fn write(&mut self, bytes: &[u8]) {
        if self.length % 8 == 0 {
            self.write_whole(bytes);
        } else {
            self.write_after(bytes);
        }
    }

    #[tactic(auto, using(crate::proofs::Streams::finished_end))]
    fn finish(&self) -> u64 {
        let last = self.tail | ((self.length % 256) << 56);
        self.state.compressed(last).finalized()
    }
}
