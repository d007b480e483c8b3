// Hashes and their writes, by their publications and docs/ROW_NUMBERS.md.
ghost use Rattle.std.specs.Prelude.{◌≡◌, true};
ghost use Rattle.tables.specs.Hashes.{Combined, CombinedApart, EntryNumbers, FloatBits, JoinedWrites, LaterValues, LongMessages, PublishedFnv, Told};

// Both hashes have their published numbers, long messages too, and each value tells its writes.
pub fn hashes_hold() -> bool
    ensures answer { result ≡ true }
    ensures messages { LongMessages }
    ensures fnv { PublishedFnv }
    ensures combined { Combined }
    ensures later { LaterValues }
    ensures entries { EntryNumbers }
    ensures floats { FloatBits }
    ensures told { Told }
    ensures joined { JoinedWrites }
{
    true
}

// That numbers are combined one-to-one says something of words that there are.
pub fn words_combine_apart() -> bool
    ensures answer { result ≡ true }
    ensures apart { CombinedApart }
{
    true
}
