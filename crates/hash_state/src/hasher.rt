// A hasher by its meaning, and the states that build hashers.
ghost use Rattle.std.specs.Prelude.{◌≡◌, ℕ, ◌^◌, ◌<◌, List, [], ◌∷◌};
ghost use Rattle.hash_state.specs.Writes.{Write, Word, Pair, Bytes};

// What takes writes, one after another, and finishes with a number of 64 bits, like Rust's `Hasher`.
pub trait Hasher {
    // The number that it would finish with after each list of further writes.
    ghost meaning: { Self → List Write → ℕ };

    // One byte. A method for each width, as the Rust's trait has them.
    fn write_u8(&mut self, v: u8)
        ensures { (ws : List Write) → meaning self.new ws ≡ meaning self.old (Word 1 v ∷ ws) };

    // A word of 2 bytes.
    fn write_u16(&mut self, v: u16)
        ensures { (ws : List Write) → meaning self.new ws ≡ meaning self.old (Word 2 v ∷ ws) };

    // A word of 4 bytes.
    fn write_u32(&mut self, v: u32)
        ensures { (ws : List Write) → meaning self.new ws ≡ meaning self.old (Word 4 v ∷ ws) };

    // A word of 8 bytes.
    fn write_u64(&mut self, v: u64)
        ensures { (ws : List Write) → meaning self.new ws ≡ meaning self.old (Word 8 v ∷ ws) };

    // A word of 16 bytes by its low and its high half: the Rust's `write_u128`.
    fn write_pair(&mut self, low: u64, high: u64)
        ensures { (ws : List Write) → meaning self.new ws ≡ meaning self.old (Pair low high ∷ ws) };

    // A byte string of any length, without its length.
    fn write(&mut self, bytes: &[u8])
        ensures { (ws : List Write) → meaning self.new ws ≡ meaning self.old (Bytes bytes.now ∷ ws) };

    // The number after all writes so far. The hasher stays as it is.
    fn finish(&self) -> u64
        ensures { result ≡ meaning self.now [] };
}

// What builds hashers that begin alike, like Rust's `BuildHasher`: an algorithm with its key or its start.
pub trait BuildHasher {
    // The hashers that it builds.
    type Hasher: Hasher + Drop;

    // ONE: what a newly built hasher finishes with after the writes.
    ghost one: { Self → List Write → ℕ };

    // A new hasher, without any write.
    fn build_hasher(&self) -> Self::Hasher
        ensures { (ws : List Write) → Self.Hasher.Hasher.meaning result ws ≡ one self.now ws };

    // Every such number has 64 bits.
    ghost one_below: { (state : Self) (ws : List Write) → one state ws < 2 ^ 64 };
}

// A state that also builds states that begin from a seed, such as the number of the columns before.
pub trait HashState: BuildHasher {
    // The states from a seed.
    type SeededState: BuildHasher + Drop;

    // SEED: what a hasher of the state with the seed finishes with after the writes.
    ghost seeded: { Self → ℕ → List Write → ℕ };

    // The state from a seed, which is any word of 64 bits.
    fn seeded_state(&self, seed: u64) -> Self::SeededState
        ensures { (ws : List Write) → Self.SeededState.BuildHasher.one result ws ≡ seeded self.now seed ws };

    // From a seed of 64 bits every such number has 64 bits.
    ghost seeded_below: { (state : Self) (s : ℕ) → s < 2 ^ 64 → (ws : List Write) → seeded state s ws < 2 ^ 64 };
}
