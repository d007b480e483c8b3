// Whether offsets and run ends are in order.
ghost use Rattle.std.specs.Prelude.{◌≡◌, ◌+◌, ◌*◌, ◌≤◌, false, length};
ghost use Rattle.admission.specs.Rejections.{bad_offset, bad_offsets, bad_order, bad_run_end, bad_run_ends, bad_values, end_before};
ghost use Rattle.admission.specs.Seams.{ElementThere};
ghost use Rattle.layout.specs.Bytes.{wide};
ghost use Rattle.layout.specs.Nodes.{ChildThere, child_rows};
ghost use Rattle.layout.specs.Records.{elements};

use crate::node::Node;
use layout::bytes::Width;
use layout::data_type::DataType;

impl Node<'_> {
    // An offset after a row's first that is negative or falls.
    fn is_bad_offset(&self, width: Width, row: u32) -> bool
        requires { ElementThere width self.now.column.bytes.now self.now.column.record.a (self.now.column.record.start + row + 1) }
        ensures { result ≡ bad_offset width self.now.column.bytes.now self.now.column.record row }
    {
        let at = self.column.element(row);
        let before = self.column.number(width, at);
        let offset = self.column.number(width, at + 1);
        width.negative(offset) || offset < before
    }

    fn is_bad_offsets(&self, width: Width) -> bool
        requires { self.now.column.record.a + wide width * (elements self.now.column.record + 1) ≤ length self.now.column.bytes.now }
        ensures { result ≡ bad_offsets width self.now.column.bytes.now self.now.column.record }
    {
        let r = self.column.record;
        width.negative(self.column.number(width, r.start as usize))
            || (0..r.rows).any(|row| self.is_bad_offset(width, row))
    }

    // The run end before a run, 0 before the first.
    pub(crate) fn end_before(&self, width: Width, run: u32) -> u64
        requires { self.now.column.record.a + wide width * run ≤ length self.now.column.bytes.now }
        ensures { result ≡ end_before width self.now.column.bytes.now self.now.column.record run }
    {
        if run == 0 {
            return 0;
        }
        self.column.number(width, run as usize - 1)
    }

    // A run end that is negative or not above the one before it.
    fn is_bad_run_end(&self, width: Width, run: u32) -> bool
        requires { ElementThere width self.now.column.bytes.now self.now.column.record.a run }
        ensures { result ≡ bad_run_end width self.now.column.bytes.now self.now.column.record run }
    {
        let end = self.column.number(width, run as usize);
        width.negative(end) || end <= self.end_before(width, run)
    }

    fn is_bad_run_ends(&self, width: Width) -> bool
        requires child { ChildThere self.now.column.bytes.now self.now.column.record 0 }
        requires inside { self.now.column.record.a + wide width * child_rows self.now.column.bytes.now self.now.column.record 0 ≤ length self.now.column.bytes.now }
        ensures { result ≡ bad_run_ends width self.now.column.bytes.now self.now.column.record }
    {
        (0..self.column.child_rows(0)).any(|run| self.is_bad_run_end(width, run))
    }

    // Offsets or run ends that are out of order.
    pub(crate) fn is_bad_order(&self) -> bool
        requires { bad_values self.now.column.bytes.now self.now.data_type self.now.column.record ≡ false }
        ensures { result ≡ bad_order self.now.column.bytes.now self.now.data_type self.now.column.record }
    {
        match self.data_type {
            DataType::Utf8(w) | DataType::Binary(w) | DataType::List(w) => self.is_bad_offsets(w),
            DataType::Map => self.is_bad_offsets(Width::Four),
            DataType::RunEnd(w) => self.is_bad_run_ends(w),
            _ => false,
        }
    }
}
