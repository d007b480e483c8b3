// The child rows that rows of a node reach.
ghost use Rattle.std.specs.Prelude.{◌≡◌, ◌+◌, ◌-◌, ◌≤◌};
ghost use Rattle.columns.specs.Jobs.{reach_from, region};
ghost use Rattle.columns.specs.Seams.{OffsetsThere, ReachThere};
ghost use Rattle.image.specs.Read.{offset};
ghost use Rattle.layout.specs.declared.data_type.DataType.TheVariants.{RunEnd};

use crate::node::Node;
use crate::run_ends::RunEnds;
use crate::span::Span;
use layout::bytes::Width;
use layout::data_type::DataType;

impl<'a> Node<'a> {
    // The child rows between the offset of an element and that of the element `n` behind it.
    fn between_offsets(&self, width: Width, at: usize, n: u32) -> Span
        requires { OffsetsThere width self.now.column.bytes.now self.now.column.record at n }
        ensures from { result.from ≡ offset width self.now.column.bytes.now self.now.column.record at }
        ensures size { result.size ≡ offset width self.now.column.bytes.now self.now.column.record (at + n) - offset width self.now.column.bytes.now self.now.column.record at }
    {
        let from = self.column.number(width, at);
        let till = self.column.number(width, at + n as usize);
        Span {
            from: from as u32,
            size: (till - from) as u32,
        }
    }

    // The run ends, of a node that has them.
    pub(crate) fn run_ends(&self, width: Width) -> RunEnds<'a>
        requires { self.now.t ≡ RunEnd width }
        ensures column { result.column ≡ self.now.column }
        ensures width { result.width ≡ width }
    {
        let column = self.column;
        RunEnds {
            column,
            width,
            count: column.child_rows(0),
        }
    }

    // The child rows that a range of rows reaches, where offsets and run ends are in order.
    fn reach_there(&self, rows: Span) -> Span
        requires { ReachThere self.now.t self.now.column.bytes.now self.now.column.record rows.from rows.size }
        ensures from { result.from ≡ reach_from self.now.t self.now.column.bytes.now self.now.column.record rows.from }
        ensures size { result.size ≡ region self.now.t self.now.column.bytes.now self.now.column.record rows.from rows.size }
    {
        let record = self.column.record;
        let at = self.column.element(rows.from);
        let n = rows.size;
        match self.t {
            DataType::Struct => Span {
                from: record.start + rows.from,
                size: if record.cnt == 0 { 0 } else { n },
            },
            DataType::List(width) => self.between_offsets(width, at, n),
            DataType::Map => self.between_offsets(Width::Four, at, n),
            DataType::FixedSizeList(size) => Span {
                from: size * (record.start + rows.from),
                size: size * n,
            },
            DataType::Dictionary(_, _) | DataType::ListView(_) => Span {
                from: 0,
                size: self.column.child_rows(0),
            },
            DataType::RunEnd(width) => self.run_ends(width).between(at as u64, n),
            _ => Span { from: 0, size: 0 },
        }
    }

    // The child rows that a range of rows reaches. A node of a sound image has its offsets and run ends in order, so
    // this asks for no more than that the rows are there.
    pub(crate) fn reach(&self, rows: Span) -> Span
        requires { rows.from + rows.size ≤ self.now.column.record.rows }
        ensures from { result.from ≡ reach_from self.now.t self.now.column.bytes.now self.now.column.record rows.from }
        ensures size { result.size ≡ region self.now.t self.now.column.bytes.now self.now.column.record rows.from rows.size }
    {
        self.reach_there(rows)
    }
}
