// Two hashes made one.
ghost use Rattle.std.specs.Prelude.{◌≡◌};
ghost use Rattle.hash_state.specs.Combine.{C, OneToOne};

// The number of two hashes together, the first before the second, in 64 bits: `C` of the definitions. With one of them
// held, different words for the other give different numbers.
pub fn combine_hashes(l: u64, r: u64) -> u64
    ensures number { result ≡ C l r }
    ensures apart { OneToOne }
{
    let hash = (17 * 37u64).wrapping_add(l);
    hash.wrapping_mul(37).wrapping_add(r)
}
