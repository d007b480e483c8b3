// The number of every row of a column, in the caller's entries.
ghost use Rattle.std.specs.Prelude.{◌≡◌, ◌+◌, ◌≤◌, length};
ghost use Rattle.columns.specs.Column.{Hashable, column_words, met_rows};
ghost use Rattle.columns.specs.Jobs.{Did, need};
ghost use Rattle.columns.specs.Open.{OthersStay, is_open};
ghost use Rattle.columns.specs.Seams.{ChildrenFit};
ghost use Rattle.columns.specs.Words.{met_words, through_children};

use crate::met::{Fold, Met};
use crate::node::Node;
use crate::region::Region;
use crate::selection::Selection;
use crate::span::Span;
use crate::walk::{enter, walk};
use hash_state::HashState;
use leaves::Rows;

// All children in turn over one region of the work, the words from `at` on: one for each of the rows.
fn hash_children<S: HashState>(node: &Node<'_>, rows: Span, at: usize, state: &S, work: &mut [u64])
    requires { ChildrenFit node.now rows.from rows.size at (length work.old) }
    ensures { Did at rows.size (λ i x. through_children (S.BuildHasher.one state.now) (S.HashState.seeded state.now) node.now (rows.from + i) x) work.old work.new }
{
    for stage in 0..node.child_count() {
        let job = enter(node, stage, rows, at, work);
        walk(node, job, state, work);
    }
}

// Each entry by the row rule, at the row that it meets. The numbers of child rows come into the work from `at` on; the
// place goes beside the work since the jobs of the walk have their places in it.
fn hash_rows<S: HashState>(
    met: Met<'_, '_>,
    state: &S,
    entries: &mut [u64],
    work: &mut [u64],
    at: usize,
)
    requires words { length entries.old ≡ met.n }
    requires room { at + need met.node.column.bytes.now met.node.number ≤ length work.old }
    ensures words { entries.new ≡ met_words (S.BuildHasher.one state.now) (S.HashState.seeded state.now) met.entry entries.old }
    ensures work { OthersStay (is_open at (length work.old)) work.old work.new }
{
    let span = met.span();
    let reach = met.node.reach(span);
    hash_children(&met.node, reach, at, state, work);
    let region = Region {
        numbers: &work[at..at + reach.size as usize],
        from: reach.from as usize,
    };
    let fold = Fold { met, span, region };
    fold.hash(state, entries);
}

// How many entries meet a row: one for each number of a list, or without a list one for each of the node's rows.
fn rows_met(list: Option<&[u32]>, rows: u32) -> usize
    ensures { result ≡ met_rows rows list.entry }
{
    let Some(list) = list else {
        return rows as usize;
    };
    list.len()
}

// The number of every row that is met, each from the word that was in its entry: in the first entries, one after the
// other. Entries behind them stay, and so do the first `claimed` words of the work. It asks that node and rows are
// there, that there are entries and work enough, and refuses nothing.
pub fn hash_column<S: HashState>(
    selection: Selection<'_>,
    first: bool,
    state: &S,
    entries: &mut [u64],
    work: &mut [u64],
    claimed: usize,
)
    requires { Hashable selection (length entries.old) (length work.old) claimed }
    ensures entries { entries.new ≡ column_words (S.BuildHasher.one state.now) (S.HashState.seeded state.now) selection.entry.image.now.bytes.now selection.entry.node selection.entry.list first entries.old }
    ensures work { OthersStay (is_open claimed (length work.old)) work.old work.new }
{
    let node = Node::of(selection.image, selection.node as u32);
    let rows = rows_met(selection.list, node.column.record.rows);
    let at = claimed.min(work.len());
    let met = Met {
        node,
        rows: Rows {
            lo: 0,
            list: selection.list,
        },
        n: rows as u32,
        first,
    };
    hash_rows(met, state, &mut entries[0..rows], work, at);
}
