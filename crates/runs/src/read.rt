// The number of a row.
ghost use Rattle.std.specs.Prelude.{◌≡◌, length};
ghost use Rattle.runs.specs.Agreement.{EachHash, Follows};
ghost use Rattle.runs.specs.Requests.{read};
ghost use Rattle.runs.specs.Runs.{begun_run, row_reply};
ghost use Rattle.runs.specs.State.{told};

use crate::fault::RunFault;
use crate::judge::judge_read;
use crate::run::{BegunRun, RowRead};

impl BegunRun {
    // The number of a row, by its place from 0, and the count of accepted columns. Refusal 11 if the entries are fewer
    // than the rows, 17 if there is no such row.
    #[tactic(auto, using(crate::proofs::Agreeing::follows))]
    pub fn read(&self, row: u64, entries: &[u64]) -> Result<RowRead, RunFault>
        ensures ledger { EachHash (λ ONE SEED. Follows ONE SEED (begun_run self.now entries.now) (read row (length entries.now)) (row_reply result) (begun_run self.now entries.now)) }
        ensures answer { row_reply result ≡ told (begun_run self.now entries.now) (read row (length entries.now)) }
    {
        judge_read(self.rows, row, entries.len())?;
        Ok(RowRead {
            number: entries[row as usize],
            count: self.count,
        })
    }
}
