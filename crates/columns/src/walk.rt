// The walk over a node's descendants, as a loop over 16 stacked frames.
ghost use Rattle.std.specs.Prelude.{◌≡◌, ◌+◌, ◌<◌, ◌≤◌, length};
ghost use Rattle.layout.specs.Nodes.{child_count};
ghost use Rattle.columns.specs.Jobs.{child_job, child_at, ended, opened, plan, region};
ghost use Rattle.columns.specs.Machine.{Fits, complete};

use crate::clear::open;
use crate::job::{Frame, Job};
use crate::met::{Fold, Met};
use crate::node::Node;
use crate::region::Region;
use crate::span::Span;
use hash_state::HashState;
use leaves::Rows;

// The end of a job: its words become its rows' numbers, by those of the child rows in the region behind them.
fn leave<S: HashState>(node: &Node<'_>, job: Job, state: &S, work: &mut [u64])
    requires rows { job.lo + job.n ≤ node.now.column.record.rows }
    requires room { job.at + job.n + region node.now.t node.now.column.bytes.now node.now.column.record job.lo job.n ≤ length work.old }
    ensures { work.new ≡ ended (S.BuildHasher.one state.now) (S.HashState.seeded state.now) node.now.column.bytes.now node.now.t node.now.column.record job work.old }
{
    // a node without a row is visited once for each path to it, and begins nothing
    if job.n == 0 {
        return;
    }
    let met = Met {
        node: *node,
        rows: Rows {
            lo: job.lo,
            list: None,
        },
        n: job.n,
        first: job.first,
    };
    let span = job.rows();
    let reach = node.reach(span);
    let (_, rest) = work.split_at_mut(job.at);
    let (words, behind) = rest.split_at_mut(job.n as usize);
    let region = Region {
        numbers: &behind[..reach.size as usize],
        from: reach.from as usize,
    };
    let fold = Fold { met, span, region };
    fold.hash(state, words);
}

// The job of a child over the words at a place, which are cleared before child 0.
pub(crate) fn enter(node: &Node<'_>, stage: u32, rows: Span, at: usize, work: &mut [u64]) -> Job
    requires child { stage < child_count (Some node.now.t) node.now.column.record }
    requires room { at + rows.size ≤ length work.old }
    ensures job { result ≡ child_job node.now.column.bytes.now node.now.column.record stage rows.from rows.size at }
    ensures words { work.new ≡ opened at rows.size stage work.old }
{
    open(work, at, rows.size as usize, stage);
    let child = node.child(stage);
    Job {
        node: child.number,
        lo: rows.from,
        n: rows.size,
        at,
        first: stage == 0,
    }
}

// The job of a child over the rows that a job reaches, in the words behind the job's own.
fn enter_behind(node: &Node<'_>, job: Job, stage: u32, work: &mut [u64]) -> Job
    requires rows { job.lo + job.n ≤ node.now.column.record.rows }
    requires room { job.at + job.n + region node.now.t node.now.column.bytes.now node.now.column.record job.lo job.n ≤ length work.old }
    requires child { stage < child_count (Some node.now.t) node.now.column.record }
    ensures job { result ≡ child_at node.now.column.bytes.now node.now.t node.now.column.record job stage }
    ensures words { work.new ≡ opened (job.at + job.n) (region node.now.t node.now.column.bytes.now node.now.column.record job.lo job.n) stage work.old }
{
    let rows = node.reach(job.rows());
    enter(node, stage, rows, job.at + job.n as usize, work)
}

// Does a job and those of all descendants of its node; `node` is any node of the image. The frames that wait are an
// array of 16 with a depth, beside the one in hand: no node is higher than 16, and there is no heap and no recursion
// here.
pub(crate) fn walk<S: HashState>(node: &Node<'_>, root: Job, state: &S, work: &mut [u64])
    requires { Fits (plan (S.BuildHasher.one state.now) (S.HashState.seeded state.now) node.now.column.bytes.now (length work.old)) 16 root }
    ensures { work.new ≡ complete (plan (S.BuildHasher.one state.now) (S.HashState.seeded state.now) node.now.column.bytes.now (length work.old)) 16 root 0 work.old }
{
    let mut top = Frame {
        job: root,
        stage: 0,
    };
    let mut frames = [top; 16];
    let mut depth: usize = 0;
    loop {
        let here = node.other(top.job.node);
        if top.stage < here.child_count() {
            let job = enter_behind(&here, top.job, top.stage, work);
            top.stage += 1;
            frames[depth] = top;
            depth += 1;
            top = Frame { job, stage: 0 };
        } else {
            leave(&here, top.job, state, work);
            if depth == 0 {
                return;
            }
            depth -= 1;
            top = frames[depth];
        }
    }
}
