// The checks in their order: nodes from the last to the first, each by all numbers.
ghost use Rattle.std.specs.Prelude.{◌≡◌, ◌+◌, ◌<◌, ◌≤◌, IfOk, None};
ghost use Rattle.admission.specs.FirstFault.{at_node, buffer_fault, fault_below, fault_of, first_fault, node_fault};
ghost use Rattle.admission.specs.Seams.{Headed, HeightOf, Heights};
ghost use Rattle.layout.specs.Records.{nodes};

use crate::fault::ImageFault;
use crate::node::Node;
use crate::table::{highest, is_bad_child, is_bad_table, is_too_long};
use layout::bytes::Native;
use layout::column::Column;

// The most bytes of an image.
pub const MAX_BYTES: usize = 1_073_741_824;

const MAX_NODES: u32 = 256;

const MAX_HEIGHT: u8 = 16;

impl Node<'_> {
    // The first fault of a node's buffers.
    fn check_buffers(&self, node: u32) -> Result<(), ImageFault>
        ensures { fault_of result ≡ at_node (buffer_fault self.now.column.bytes.now self.now.data_type self.now.column.record) node None }
    {
        if self.is_bad_buffer() {
            return Err(ImageFault::Buffer(node));
        }
        if self.is_bad_order() {
            return Err(ImageFault::Order(node));
        }
        if self.is_out_of_reach() {
            return Err(ImageFault::Reach(node));
        }
        if self.is_bad_views() {
            return Err(ImageFault::View(node));
        }
        Ok(())
    }
}

// The height of a node, or its first fault, by the heights of the nodes behind it.
fn check_node(bytes: &[u8], count: u32, node: u32, heights: &[u8; 256]) -> Result<u8, ImageFault>
    requires headed { Headed bytes.now }
    requires count { (count ≡ nodes bytes.now) × (count ≤ 256) }
    requires node { node < count }
    requires heights { Heights bytes.now (node + 1) heights.now }
    ensures fault { fault_of result ≡ at_node (node_fault bytes.now node) node None }
    ensures height { IfOk result (HeightOf bytes.now node) }
{
    let column = Column::read(bytes, node as usize);
    let Some(data_type) = column.record.data_type() else {
        return Err(ImageFault::Kind(node));
    };
    if is_too_long(&column.record) {
        return Err(ImageFault::Length(node));
    }
    let table = data_type.table();
    if is_bad_table(bytes.len(), table, &column.record) {
        return Err(ImageFault::Table(node));
    }
    if is_bad_child(&column, count, node, table) {
        return Err(ImageFault::Child(node));
    }
    let below = highest(&column, heights, table.listed(column.record.cnt));
    if below >= MAX_HEIGHT {
        return Err(ImageFault::Height(node));
    }
    Node { column, data_type }.check_buffers(node)?;
    Ok(below + 1)
}

// The first fault of the nodes, the last node first.
fn check_nodes(bytes: &[u8], count: u32) -> Result<(), ImageFault>
    requires headed { Headed bytes.now }
    requires count { (count ≡ nodes bytes.now) × (count ≤ 256) }
    ensures { fault_of result ≡ fault_below bytes.now count }
{
    // a place for each node that an image can have, as the engine has no heap
    let mut heights = [0u8; 256];
    for node in (0..count).rev() {
        let height = check_node(bytes, count, node, &heights)?;
        heights[node as usize] = height;
    }
    Ok(())
}

// The first fault of an image; none makes it one that can be read without a test.
pub fn check_image(bytes: &[u8]) -> Result<(), ImageFault>
    ensures { fault_of result ≡ first_fault bytes.now }
{
    if bytes.len() < 4 {
        return Err(ImageFault::Header);
    }
    let count = u32::load(bytes, 0);
    if count == 0 || count > MAX_NODES {
        return Err(ImageFault::Header);
    }
    if bytes.len() < 4 + 36 * count as usize || bytes.len() > MAX_BYTES {
        return Err(ImageFault::Header);
    }
    check_nodes(bytes, count)
}
