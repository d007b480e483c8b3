// What can be told of a node at a glance.
#![tactic(auto)]

ghost use Rattle.std.specs.Prelude.{◌≡◌, ◌<◌, Some};
ghost use Rattle.image.specs.Values.{node_record};
ghost use Rattle.summary.specs.Nulls.{is_null, nulls_of};

use image::place::Image;
use layout::column::Column;
use layout::record::Record;

// Whether a row is marked null: of an admitted image its bit is read without a test.
fn is_null(image: &Image<'_>, node: u64, r: &Record, row: u32) -> bool
    requires node { Some r.now ≡ node_record image.now.bytes.now node }
    requires row { row < r.now.rows }
    ensures { result ≡ is_null image.now.bytes.now r.now row }
{
    let Some(t) = r.data_type() else {
        return false;
    };
    let column = Column {
        bytes: image.bytes(),
        record: *r,
    };
    column.is_null(t, row)
}

// How many rows of a node are marked null, or none where there is no such node.
pub fn null_count(image: &Image<'_>, node: u64) -> Option<u32>
    ensures { result ≡ nulls_of image.now.bytes.now node }
{
    let r = image.node(node)?;
    // no `filter` and `count`: their clauses on a range go by places, which leaves the sum unproved
    let mut count = 0;
    for row in 0..r.rows {
        if is_null(image, node, &r, row) {
            count += 1;
        }
    }
    Some(count)
}
