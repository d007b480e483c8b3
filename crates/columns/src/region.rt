// The numbers of child rows, in a part of the work.
ghost use Rattle.std.specs.Prelude.{◌≡◌};
ghost use Rattle.columns.specs.Region.{Holds, combined_in, number_in};

use hash_state::combine_hashes;

// One number for each of the child rows that are reached, the first for the child row `from`.
#[derive(Clone, Copy)]
pub(crate) struct Region<'w> {
    pub numbers: &'w [u64],
    pub from: usize,
}

impl Region<'_> {
    // The number of a child row.
    pub(crate) fn number(&self, row: usize) -> u64
        requires { Holds self.now row 1 }
        ensures { result ≡ number_in self.now row }
    {
        self.numbers[row - self.from]
    }

    // The numbers of `count` child rows from one on, combined with an entry one after the other.
    pub(crate) fn combine(&self, start: u64, count: u64, initial: u64) -> u64
        requires { Holds self.now start count }
        ensures { result ≡ combined_in self.now initial start count }
    {
        let mut e = initial;
        let first = start as usize - self.from;
        for number in &self.numbers[first..first + count as usize] {
            e = combine_hashes(e, *number);
        }
        e
    }
}
