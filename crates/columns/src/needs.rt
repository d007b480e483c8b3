// How many words of work a node needs.
ghost use Rattle.std.specs.Prelude.{◌≡◌, ◌<◌};
ghost use Rattle.columns.specs.Column.{node_need};
ghost use Rattle.columns.specs.Jobs.{most, need, needs_of};
ghost use Rattle.columns.specs.Seams.{NeedsThere};
ghost use Rattle.layout.specs.Records.{nodes};
ghost use Rattle.layout.specs.Nodes.{child_count};

use crate::node::Node;
use image::place::Image;

// The largest sum of a child's rows and its need, which stands in the table at the child's number; 0 without children.
fn need_of(node: &Node<'_>, needs: &[u32; 256]) -> u32
    requires { NeedsThere node.now needs.now }
    ensures { result ≡ most (needs_of node.now.column.bytes.now node.now.column.record needs.now) (child_count (Some node.now.t) node.now.column.record) }
{
    let mut most = 0u32;
    for index in 0..node.child_count() {
        let child = node.child(index);
        most = most.max(child.column.record.rows + needs[child.number as usize]);
    }
    most
}

// The need of a node, by one pass over the nodes from the last to it: a child with many parents is looked at once. The
// table has a place for each node that an image can have, as the engine has no heap.
pub(crate) fn need(image: &Image<'_>, number: u32) -> u32
    requires { number < nodes image.now.bytes.now }
    ensures { result ≡ need image.now.bytes.now number }
{
    let mut needs = [0u32; 256];
    for at in (number..image.node_count()).rev() {
        let node = Node::of(image, at);
        needs[at as usize] = need_of(&node, &needs);
    }
    needs[number as usize]
}

// How many words of work a node needs, by its number from 0: at most 16,777,216. None where there is no such node.
pub fn node_need(image: &Image<'_>, node: u64) -> Option<u32>
    ensures { result ≡ node_need image.now.bytes.now node }
{
    if node >= u64::from(image.node_count()) {
        return None;
    }
    Some(need(image, node as u32))
}
