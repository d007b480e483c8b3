// A column: each row of the run meets a row of it.
ghost use Rattle.std.specs.Prelude.{◌≡◌, ◌==◌};
ghost use Rattle.columns.specs.Open.{OthersStay};
ghost use Rattle.runs.specs.Agreement.{Follows};
ghost use Rattle.runs.specs.Open.{opens};
ghost use Rattle.runs.specs.Refusals.{refusal};
ghost use Rattle.runs.specs.Runs.{asked, begun_run, done_reply, either_reply, either_run, fault_of, new_run, shape_run};
ghost use Rattle.runs.specs.State.{step, told};

use crate::account::{Claim, WorkAccount};
use crate::call::Lent;
use crate::fault::RunFault;
use crate::run::{BegunRun, NewRun, Shape};
use columns::{Selection, hash_column};
use hash_state::HashState;

// The words of a run's rows are led on by a column, unless it is refused. The need is claimed as soon as it is known,
// before the checks that are left.
fn lead_rows<S: HashState>(
    run: Shape,
    selection: Selection<'_>,
    state: &S,
    entries: &mut [u64],
    work: &mut [u64],
    mut claim: Claim<'_>,
) -> Result<(), RunFault>
    ensures fault { fault_of result ≡ refusal run.rows run.count (asked selection.entry entries.old work.old claim.entry.account.now) }
    ensures entries { entries.new ≡ (step (S.BuildHasher.one state.now) (S.HashState.seeded state.now) (shape_run run entries.old) (asked selection.entry entries.old work.old claim.entry.account.now)).words }
    ensures work { OthersStay (opens (asked selection.entry entries.old work.old claim.entry.account.now) (done_reply result)) work.old work.new }
    ensures account { claim.exit.0.now.claimed ≡ claim.entry.before }
{
    let lent = Lent {
        entries: entries.len(),
        work: work.len(),
        claimed: claim.account.claimed,
    };
    let size = lent.judge_node(run, selection)?;
    claim.account.claimed = claim.before.saturating_add(size.need as usize);
    lent.judge_rows(run.rows, size, selection.list)?;
    let first = run.count == 0;
    hash_column(selection, first, state, entries, work, lent.claimed);
    Ok(())
}

impl NewRun {
    // The first column: row j meets row list[j] of the node, or row j without a list, and word j of the entries, which is
    // the number of row j, is led on by the slot there, as first. The need of the node is taken of the unclaimed work. It
    // gives a begun run; with refusal 11, 13, 14, 15 or 16 it gives the new run back, and nothing has changed.
    pub fn column<S: HashState>(
        self,
        selection: Selection<'_>,
        state: &S,
        entries: &mut [u64],
        work: &mut [u64],
        account: &mut WorkAccount,
    ) -> Result<BegunRun, (NewRun, RunFault)>
        ensures ledger { Follows (S.BuildHasher.one state.now) (S.HashState.seeded state.now) (new_run self entries.old) (asked selection.entry entries.old work.old account.old) (either_reply result) (either_run result entries.new) }
        ensures answer { either_reply result ≡ told (new_run self entries.old) (asked selection.entry entries.old work.old account.old) }
        ensures state { either_run result entries.new ≡ step (S.BuildHasher.one state.now) (S.HashState.seeded state.now) (new_run self entries.old) (asked selection.entry entries.old work.old account.old) }
        ensures work { OthersStay (opens (asked selection.entry entries.old work.old account.old) (either_reply result)) work.old work.new }
        ensures account { account.new ≡ account.old }
    {
        let claim = Claim {
            before: account.claimed,
            account,
        };
        let rows = self.rows;
        let run = Shape { rows, count: 0 };
        match lead_rows(run, selection, state, entries, work, claim) {
            Ok(()) => Ok(BegunRun { rows, count: 1 }),
            Err(fault) => Err((self, fault)),
        }
    }
}

impl BegunRun {
    // A later column: the same, as later, and the count is raised by 1. Refusals 11 to 16; a refusal changes nothing.
    #[tactic(auto, using(crate::proofs::Agreeing::follows))]
    pub fn column<S: HashState>(
        &mut self,
        selection: Selection<'_>,
        state: &S,
        entries: &mut [u64],
        work: &mut [u64],
        account: &mut WorkAccount,
    ) -> Result<(), RunFault>
        ensures ledger { Follows (S.BuildHasher.one state.now) (S.HashState.seeded state.now) (begun_run self.old entries.old) (asked selection.entry entries.old work.old account.old) (done_reply result) (begun_run self.new entries.new) }
        ensures answer { done_reply result ≡ told (begun_run self.old entries.old) (asked selection.entry entries.old work.old account.old) }
        ensures state { begun_run self.new entries.new ≡ step (S.BuildHasher.one state.now) (S.HashState.seeded state.now) (begun_run self.old entries.old) (asked selection.entry entries.old work.old account.old) }
        ensures work { OthersStay (opens (asked selection.entry entries.old work.old account.old) (done_reply result)) work.old work.new }
        ensures account { account.new ≡ account.old }
    {
        let claim = Claim {
            before: account.claimed,
            account,
        };
        let run = Shape {
            rows: self.rows,
            count: self.count,
        };
        lead_rows(run, selection, state, entries, work, claim)?;
        self.count += 1;
        Ok(())
    }
}
