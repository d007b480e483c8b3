// Admission to the image place, and the nodes of the image in it.
ghost use Rattle.std.specs.Prelude.{◌≡◌, [], MatchResult};
ghost use Rattle.admission.specs.FirstFault.{fault_of, first_fault};
ghost use Rattle.image.specs.Values.{node_child, node_record};
ghost use Rattle.layout.specs.Records.{nodes};

use crate::place::Image;
use admission::check::check_image;
use admission::fault::ImageFault;
use layout::bytes::Native;
use layout::column::Column;
use layout::record::Record;

impl<'a> Image<'a> {
    // The empty image, which has no nodes.
    pub fn empty() -> Image<'a>
        ensures { result.bytes.now ≡ [] }
    {
        Image { bytes: &[] }
    }

    // Puts the bytes here if they have no fault; else the image that was here stays.
    pub fn admit(&mut self, bytes: &'a [u8]) -> Result<(), ImageFault>
        ensures fault { fault_of result ≡ first_fault bytes.now }
        ensures place { MatchResult result (λ _. self.new.bytes.now ≡ bytes.now) (λ _. self.new ≡ self.old) }
    {
        check_image(bytes)?;
        self.bytes = bytes;
        Ok(())
    }

    // How many nodes the image has.
    pub fn node_count(&self) -> u32
        ensures { result ≡ nodes self.now.bytes.now }
    {
        if self.bytes.is_empty() {
            return 0;
        }
        u32::load(self.bytes, 0)
    }

    // The record of a node, or none where there is no such node.
    pub fn node(&self, node: u64) -> Option<Record>
        ensures { result ≡ node_record self.now.bytes.now node }
    {
        if node >= u64::from(self.node_count()) {
            return None;
        }
        Some(Record::read(self.bytes, node as usize))
    }

    // The node number of a child, or none where there is no such node or child.
    pub fn child(&self, node: u64, index: u64) -> Option<u32>
        ensures { result ≡ node_child self.now.bytes.now node index }
    {
        let record = self.node(node)?;
        if index >= u64::from(record.child_count()) {
            return None;
        }
        let column = Column {
            bytes: self.bytes,
            record,
        };
        Some(column.child(index as u32))
    }
}
