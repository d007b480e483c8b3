// Columns of views.
ghost use Rattle.layout.specs.declared.data_type.DataType.TheVariants.{View as view_type};

use crate::reader::Reader;
use hash_state::View;
use layout::bytes::Native;
use layout::column::Column;

#[derive(Drop)]
pub(crate) struct Views;

impl<'a> Reader<'a> for Views {
    type Item = View<'a>;

    ghost data_type = { λ _. view_type };

    // Up to 12 bytes stand in the view itself, with zeros behind them. Its low word is made of the size: so the compiler
    // knows three of its bytes to be 0, and FNV-1a goes past them in one step.
    fn value(&self, column: &Column<'a>, row: u32) -> View<'a> {
        let bytes = column.bytes;
        let view = column.view_place(row);
        let size = u32::load(bytes, view);
        if size <= 12 {
            let low = u64::from(size) + (u64::from(u32::load(bytes, view + 4)) << 32);
            return View::Inline(low, u64::load(bytes, view + 8));
        }
        let place = column.long_view_place(view);
        View::Long(&bytes[place..place + size as usize])
    }
}
