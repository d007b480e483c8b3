// Whether a call is refused, in checking order.
ghost use Rattle.std.specs.Prelude.{◌≡◌, ◌<◌, ◌==◌, cond, not, nat_lt, Some, None, IfOk};
ghost use Rattle.runs.specs.Columns.{all_below, column_need, height, list_below, meeting_of};
ghost use Rattle.runs.specs.Refusals.{begin_refusal, keep_refusal, node_refusal, read_refusal, rows_refusal, unclaimed};
ghost use Rattle.runs.specs.Runs.{column_of, fault_of, list_of};

use crate::call::Lent;
use crate::fault::RunFault;
use crate::run::Shape;
use columns::{Selection, node_need};

const MAX_ROWS: usize = 1_048_576;

const MAX_COLUMNS: u8 = 255;

// How many rows a column has, and how many words of the work it needs.
#[derive(Clone, Copy)]
pub(crate) struct ColumnSize {
    pub rows: u32,
    pub need: u32,
}

pub(crate) fn judge_begin(entries: usize) -> Result<(), RunFault>
    ensures { fault_of result ≡ begin_refusal entries }
{
    if entries > MAX_ROWS {
        return Err(RunFault::Entries);
    }
    Ok(())
}

// Every number of a list is below the bound.
fn check_list(list: &[u32], bound: u32) -> Result<(), RunFault>
    ensures { fault_of result ≡ cond (not (all_below bound list.now)) (Some 15) None }
{
    for row in list {
        if *row >= bound {
            return Err(RunFault::Listed);
        }
    }
    Ok(())
}

// As many rows of a column as the run has are met, each of them there.
fn check_met(rows: u32, height: u32, list: Option<&[u32]>) -> Result<(), RunFault>
    ensures { fault_of result ≡ cond (not (meeting_of height (list_of list.entry) == rows)) (Some 14) (cond (not (list_below height (list_of list.entry))) (Some 15) None) }
{
    let Some(list) = list else {
        return if height == rows {
            Ok(())
        } else {
            Err(RunFault::Length)
        };
    };
    if list.len() != rows as usize {
        return Err(RunFault::Length);
    }
    check_list(list, height)
}

impl Lent {
    // The words of the work that a call needs are there behind the claimed ones.
    fn check_work(self, need: usize) -> Result<(), RunFault>
        ensures { fault_of result ≡ cond (nat_lt (unclaimed self) need) (Some 16) None }
    {
        if self.work.saturating_sub(self.claimed) < need {
            return Err(RunFault::Work);
        }
        Ok(())
    }

    // 11 to 13 of a column: the size of its node, from which the need is known.
    pub(crate) fn judge_node(
        self,
        run: Shape,
        selection: Selection<'_>,
    ) -> Result<ColumnSize, RunFault>
        ensures fault { fault_of result ≡ node_refusal run.rows run.count (column_of selection.entry) self }
        ensures rows { IfOk result (λ size. size.rows ≡ height (column_of selection.entry)) }
        ensures need { IfOk result (λ size. size.need ≡ column_need (column_of selection.entry)) }
    {
        if self.entries < run.rows as usize {
            return Err(RunFault::Entries);
        }
        if run.count == MAX_COLUMNS {
            return Err(RunFault::Columns);
        }
        // both are none where there is no such node
        let record = selection.image.node(selection.node);
        let need = node_need(selection.image, selection.node);
        let (Some(record), Some(need)) = (record, need) else {
            return Err(RunFault::Node);
        };
        Ok(ColumnSize {
            rows: record.rows,
            need,
        })
    }

    // 14 to 16 of a column.
    pub(crate) fn judge_rows(
        self,
        rows: u32,
        size: ColumnSize,
        list: Option<&[u32]>,
    ) -> Result<(), RunFault>
        ensures { fault_of result ≡ rows_refusal rows size.rows size.need (list_of list.entry) self }
    {
        check_met(rows, size.rows, list)?;
        self.check_work(size.need as usize)
    }

    pub(crate) fn judge_keep(self, rows: u32, list: &[u32]) -> Result<(), RunFault>
        ensures { fault_of result ≡ keep_refusal rows list.now self }
    {
        if self.entries < rows as usize {
            return Err(RunFault::Entries);
        }
        if list.len() > self.entries || list.len() > MAX_ROWS {
            return Err(RunFault::Length);
        }
        check_list(list, rows)?;
        self.check_work(list.len())
    }
}

pub(crate) fn judge_read(rows: u32, row: u64, entries: usize) -> Result<(), RunFault>
    ensures { fault_of result ≡ read_refusal rows row entries }
{
    if entries < rows as usize {
        return Err(RunFault::Entries);
    }
    if row >= u64::from(rows) {
        return Err(RunFault::Row);
    }
    Ok(())
}
