// Jobs of the walk.
ghost use Rattle.std.specs.Prelude.{◌≡◌};

use crate::span::Span;

// Rows of a node, `n` of them from `lo` on, which are hashed into as many words of the work, from word `at` on; `node`
// is the node's number. As first or not, for all of them.
#[derive(Clone, Copy)]
pub(crate) struct Job {
    pub node: u32,
    pub lo: u32,
    pub n: u32,
    pub at: usize,
    pub first: bool,
}

impl Job {
    // The rows that it hashes.
    pub(crate) fn rows(self) -> Span
        ensures from { result.from ≡ self.lo }
        ensures size { result.size ≡ self.n }
    {
        Span {
            from: self.lo,
            size: self.n,
        }
    }
}

// A job whose first `stage` children are done, of 0 to 255.
#[derive(Clone, Copy)]
pub(crate) struct Frame {
    pub job: Job,
    pub stage: u32,
}
