// A node whose lengths, table and children have passed; the checks of its buffers stand by their numbers in the modules
// `buffers`, `order`, `reach` and `views`.
ghost use Rattle.std.specs.Prelude.{◌≡◌, false};
ghost use Rattle.admission.specs.Rejections.{too_long};
ghost use Rattle.admission.specs.Seams.{Linked, Linked-prop};

use layout::column::Column;
use layout::data_type::DataType;

#[derive(Clone, Copy)]
pub(crate) struct Node<'a> {
    pub(crate) column: Column<'a>,
    pub(crate) data_type: DataType,
    ghost short: { too_long column.record ≡ false },
    ghost linked: { Linked column.bytes.now data_type column.record } by { Linked-prop column.bytes.now data_type column.record },
}
