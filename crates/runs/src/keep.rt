// A keep: the rows that a list names, in its order.
ghost use Rattle.std.specs.Prelude.{◌≡◌, ◌≤◌, true, length, map, slice_index, IfOk, ◌-◌};
ghost use Rattle.columns.specs.Open.{OthersStay, is_open};
ghost use Rattle.runs.specs.Agreement.{EachHash, Follows};
ghost use Rattle.runs.specs.Columns.{all_below};
ghost use Rattle.runs.specs.Open.{opens};
ghost use Rattle.runs.specs.Refusals.{keep_refusal, unless};
ghost use Rattle.runs.specs.Requests.{keep};
ghost use Rattle.runs.specs.Runs.{begun_run, done_reply, fault_of, lent, new_run};
ghost use Rattle.runs.specs.State.{kept, step, told};

use crate::account::{Claim, WorkAccount};
use crate::call::Lent;
use crate::fault::RunFault;
use crate::run::{BegunRun, NewRun};

// The entries at listed rows, in the list's order.
fn gather(list: &[u32], entries: &[u64], gathered: &mut [u64])
    requires there { all_below (length entries.now) list.now ≡ true }
    requires room { length gathered.old ≡ length list.now }
    ensures { gathered.new ≡ map (slice_index entries.now) list.now }
{
    for (j, row) in list.iter().enumerate() {
        gathered[j] = entries[*row as usize];
    }
}

// Row j takes the word of row list[j]. They are gathered in the work, behind the claimed words, since a list may name
// its rows in any order.
fn keep_words(list: &[u32], entries: &mut [u64], work: &mut [u64], claimed: usize)
    requires there { all_below (length entries.old) list.now ≡ true }
    requires entries { length list.now ≤ length entries.old }
    requires work { length list.now ≤ length work.old - claimed }
    ensures entries { entries.new ≡ kept list.now entries.old }
    ensures work { OthersStay (is_open claimed (length work.old)) work.old work.new }
{
    let n = list.len();
    let at = claimed.min(work.len());
    gather(list, entries, &mut work[at..at + n]);
    entries[0..n].copy_from_slice(&work[at..at + n]);
}

// The rows that a list names become the run's, of so many; how many they are. The list's length is the need.
fn keep_rows(
    rows: u32,
    list: &[u32],
    entries: &mut [u64],
    work: &mut [u64],
    mut claim: Claim<'_>,
) -> Result<u32, RunFault>
    ensures fault { fault_of result ≡ keep_refusal rows list.now (lent entries.old work.old claim.entry.account.now) }
    ensures rows { IfOk result (λ n. n ≡ length list.now) }
    ensures entries { entries.new ≡ unless (keep_refusal rows list.now (lent entries.old work.old claim.entry.account.now)) (λ _. entries.old) (kept list.now entries.old) }
    ensures work { OthersStay (opens (keep list.now (lent entries.old work.old claim.entry.account.now)) (done_reply result)) work.old work.new }
    ensures account { claim.exit.0.now.claimed ≡ claim.entry.before }
{
    let lent = Lent {
        entries: entries.len(),
        work: work.len(),
        claimed: claim.account.claimed,
    };
    claim.account.claimed = claim.before.saturating_add(list.len());
    lent.judge_keep(rows, list)?;
    keep_words(list, entries, work, lent.claimed);
    Ok(list.len() as u32)
}

impl NewRun {
    // Row j takes the word of row list[j], and the run has as many rows as the list. The list may repeat, leave out and
    // reorder rows, and be longer than the run; as many words as it has numbers are taken of the unclaimed work. Words
    // of the entries behind the list stay. Refusals 11, 14, 15 and 16; a refusal changes nothing.
    #[tactic(auto, using(crate::proofs::Agreeing::follows))]
    pub fn keep(
        &mut self,
        list: &[u32],
        entries: &mut [u64],
        work: &mut [u64],
        account: &mut WorkAccount,
    ) -> Result<(), RunFault>
        ensures ledger { EachHash (λ ONE SEED. Follows ONE SEED (new_run self.old entries.old) (keep list.now (lent entries.old work.old account.old)) (done_reply result) (new_run self.new entries.new)) }
        ensures answer { done_reply result ≡ told (new_run self.old entries.old) (keep list.now (lent entries.old work.old account.old)) }
        ensures state { EachHash (λ ONE SEED. new_run self.new entries.new ≡ step ONE SEED (new_run self.old entries.old) (keep list.now (lent entries.old work.old account.old))) }
        ensures work { OthersStay (opens (keep list.now (lent entries.old work.old account.old)) (done_reply result)) work.old work.new }
        ensures account { account.new ≡ account.old }
    {
        let claim = Claim {
            before: account.claimed,
            account,
        };
        let kept = keep_rows(self.rows, list, entries, work, claim)?;
        self.rows = kept;
        Ok(())
    }
}

impl BegunRun {
    // The same of a run that has accepted columns.
    #[tactic(auto, using(crate::proofs::Agreeing::follows))]
    pub fn keep(
        &mut self,
        list: &[u32],
        entries: &mut [u64],
        work: &mut [u64],
        account: &mut WorkAccount,
    ) -> Result<(), RunFault>
        ensures ledger { EachHash (λ ONE SEED. Follows ONE SEED (begun_run self.old entries.old) (keep list.now (lent entries.old work.old account.old)) (done_reply result) (begun_run self.new entries.new)) }
        ensures answer { done_reply result ≡ told (begun_run self.old entries.old) (keep list.now (lent entries.old work.old account.old)) }
        ensures state { EachHash (λ ONE SEED. begun_run self.new entries.new ≡ step ONE SEED (begun_run self.old entries.old) (keep list.now (lent entries.old work.old account.old))) }
        ensures work { OthersStay (opens (keep list.now (lent entries.old work.old account.old)) (done_reply result)) work.old work.new }
        ensures account { account.new ≡ account.old }
    {
        let claim = Claim {
            before: account.claimed,
            account,
        };
        self.rows = keep_rows(self.rows, list, entries, work, claim)?;
        Ok(())
    }
}
