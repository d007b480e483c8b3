// The run ends of a column, which find the run of an element.
ghost use Rattle.std.specs.Prelude.{◌≡◌, ◌+◌, ◌-◌, ◌*◌, ◌<◌, ◌≤◌, false, ◌&&◌, length, ◌==◌, nat_lt};
ghost use Rattle.admission.specs.Rejections.{bad_run_ends};
ghost use Rattle.columns.specs.Jobs.{run_till};
ghost use Rattle.columns.specs.Seams.{RunEndsThere};
ghost use Rattle.image.specs.Read.{run_of};
ghost use Rattle.layout.specs.Bytes.{wide};
ghost use Rattle.layout.specs.Nodes.{child_rows, element};

use crate::span::Span;
use layout::bytes::Width;
use layout::column::Column;

// As many run ends as the child has rows, of one width, in the buffer at A; each is above the one before.
#[derive(Clone, Copy)]
pub(crate) struct RunEnds<'a> {
    pub column: Column<'a>,
    pub width: Width,
    pub count: u32,
    ghost counted: { count ≡ child_rows column.bytes.now column.record 0 },
    ghost inside: { column.record.a + wide width * count ≤ length column.bytes.now },
    ghost rising: { bad_run_ends width column.bytes.now column.record ≡ false },
}

impl RunEnds<'_> {
    // The first element behind a run.
    fn end(&self, run: u32) -> u64
        requires { run < self.now.count }
        ensures { result ≡ element self.now.width self.now.column.bytes.now self.now.column.record.a run }
    {
        self.column.number(self.width, run as usize)
    }

    // The run of an element, by halving: run ends are bytes of any width, so there is no slice of them to search.
    fn find(&self, at: u64) -> u32
        ensures { result ≡ run_of self.now.width self.now.column.bytes.now self.now.column.record at }
    {
        let mut low = 0u32;
        let mut high = self.count;
        while low < high {
            let middle = low + (high - low) / 2;
            if self.end(middle) > at {
                high = middle;
            } else {
                low = middle + 1;
            }
        }
        low
    }

    // Whether a run is that of an element.
    fn covers(&self, at: u64, run: u32) -> bool
        ensures { result ≡ (nat_lt run self.now.count && (run_of self.now.width self.now.column.bytes.now self.now.column.record at) == run) }
    {
        if run >= self.count {
            return false;
        }
        if self.end(run) <= at {
            return false;
        }
        if run == 0 {
            return true;
        }
        self.end(run - 1) <= at
    }

    // The run of an element, tried first at the run of the row before and at the next one: of rows one after the
    // other, all but the first are found so.
    pub(crate) fn near(&self, at: u64, before: u32) -> u32
        ensures { result ≡ run_of self.now.width self.now.column.bytes.now self.now.column.record at }
    {
        if self.covers(at, before) {
            return before;
        }
        let next = before.saturating_add(1);
        if self.covers(at, next) {
            return next;
        }
        self.find(at)
    }

    // The runs that cover `n` elements from one on, none of no elements.
    pub(crate) fn between(&self, at: u64, n: u32) -> Span
        requires { RunEndsThere self.now.width self.now.column.bytes.now self.now.column.record at n }
        ensures from { result.from ≡ run_of self.now.width self.now.column.bytes.now self.now.column.record at }
        ensures size { result.size ≡ run_till self.now.width self.now.column.bytes.now self.now.column.record at n - run_of self.now.width self.now.column.bytes.now self.now.column.record at }
    {
        let from = self.find(at);
        if n == 0 {
            return Span { from, size: 0 };
        }
        let last = self.find(at + u64::from(n) - 1);
        Span {
            from,
            size: last + 1 - from,
        }
    }
}
