// An image described for a person.
use crate::failure::{Failure, Refusal};
use crate::files::read_image;
use crate::slots::SlotShown;
use crate::types::TypeName;
use image::place::Image;
use layout::record::Record;
use std::alloc::Global;
use std::io::{BufWriter, Stdout, Write};
use std::{fmt, io};
use summary::null_count;

// A node's line: its number, its type, its rows and start, how many rows are marked null, and the numbers of its
// children.
#[derive(Clone, Copy)]
struct NodeShown<'a, 'b> {
    image: Image<'a>,
    node: u32,
    record: Record,
    type_name: &'b str,
}

impl fmt::Display for NodeShown<'_, '_> {
    fn fmt<W: fmt::Write>(&self, f: &mut fmt::Formatter<W>) -> fmt::Result {
        let node = self.node;
        let type_name = self.type_name;
        let rows = self.record.rows;
        let start = self.record.start;
        let nulls = null_count(&self.image, u64::from(node)).unwrap_or(0);
        write!(
            f,
            "{node:>3}  {type_name:<23}  rows {rows:<7}  start {start:<7}  nulls {nulls}"
        )?;
        let count = self.record.child_count();
        if count > 0 {
            f.write_str("  children")?;
        }
        let child = |index| self.image.child(u64::from(node), u64::from(index));
        for number in (0..count).filter_map(child) {
            write!(f, " {number}")?;
        }
        Ok(())
    }
}

// An image, and where its lines go.
#[derive(Drop)]
struct Listing<'a> {
    heap: Global,
    image: Image<'a>,
    out: BufWriter<Stdout>,
}

pub(crate) fn show(rt: &HostRuntime, path: &str, node: Option<u64>) -> Result<(), Failure> {
    let heap = rt.alloc();
    let bytes = read_image(rt, path).try_map_err(|error| Ok(Failure::Unreadable(
        String::from_str(heap, path)?,
        error,
    )))?;
    let mut image = Image::empty();
    image.admit(bytes.as_slice()).try_map_err(|fault| Ok(Failure::Refused(
        String::from_str(heap, path)?,
        Refusal(fault),
    )))?;
    let size = bytes.len();
    let count = image.node_count();
    let out = BufWriter::new(heap, rt.stdout())?;
    let mut listing = Listing { heap, image, out };
    match node {
        None => {
            writeln!(listing.out, "{path}: bytes {size}, nodes {count}")?;
            listing.show_nodes()?;
        }
        Some(node) => {
            let record = image.node(node).try_ok_or_else(|| {
                Ok(Failure::NoNode(String::from_str(heap, path)?, node, count))
            })?;
            writeln!(listing.out, "{path}: bytes {size}, nodes {count}")?;
            listing.show_rows(node, &record)?;
        }
    }
    listing.out.flush()?;
    Ok(())
}

impl Listing<'_> {
    fn show_nodes(&mut self) -> io::Result<()> {
        for node in 0..self.image.node_count() {
            if let Some(record) = self.image.node(u64::from(node)) {
                self.show_node(node, record)?;
            }
        }
        Ok(())
    }

    fn show_node(&mut self, node: u32, record: Record) -> io::Result<()> {
        let Some(data_type) = record.data_type() else {
            return Ok(());
        };
        // as text, so that it can be padded
        let name = TypeName(data_type).to_string(self.heap)?;
        let image = self.image;
        let type_name = name.as_str();
        let shown = NodeShown {
            image,
            node,
            record,
            type_name,
        };
        writeln!(self.out, "{shown}")
    }

    fn show_rows(&mut self, node: u64, record: &Record) -> io::Result<()> {
        let Some(data_type) = record.data_type() else {
            return Ok(());
        };
        for row in 0..record.rows {
            if let Ok(value) = self.image.slot(node, u64::from(row)) {
                writeln!(self.out, "{row:>7}  {}", SlotShown(data_type, value))?;
            }
        }
        Ok(())
    }
}
