// The start of a run.
ghost use Rattle.std.specs.Prelude.{◌≡◌, IfOk, length};
ghost use Rattle.runs.specs.Agreement.{Agrees, EachHash};
ghost use Rattle.runs.specs.Ledger.{begun};
ghost use Rattle.runs.specs.Refusals.{begin_refusal};
ghost use Rattle.runs.specs.Runs.{fault_of, new_run};

use crate::fault::RunFault;
use crate::judge::judge_begin;
use crate::run::NewRun;

impl NewRun {
    // A run with a row for each entry, whose words are the rows' first numbers. Refusal 11 if there are more than
    // 1,048,576. Nothing is kept of the entries: each call is lent them again.
    pub fn begin(entries: &[u64]) -> Result<NewRun, RunFault>
        ensures ledger { IfOk result (λ run. EachHash (λ ONE SEED. Agrees ONE SEED (begun entries.now) (new_run run entries.now))) }
        ensures fault { fault_of result ≡ begin_refusal (length entries.now) }
        ensures rows { IfOk result (λ run. run.rows ≡ length entries.now) }
    {
        judge_begin(entries.len())?;
        Ok(NewRun {
            rows: entries.len() as u32,
        })
    }
}
