// The number of each row over columns of an image, from entries of 0.
use crate::failure::{ColumnRefusal, Failure, Refusal};
use crate::files::read_image;
use crate::state::ChosenState;
use columns::node_need;
use hash_state::HashState;
use image::place::Image;
use runs::call::{Answer, Call, Lent, Trace};
use runs::fault::RunFault;
use runs::replay::replay;
use std::alloc::{AllocError, Global};
use std::io::{BufWriter, Write};

// The columns of a run, each of all rows, and the words that they are lent.
#[derive(Drop)]
struct Columns<'a> {
    image: Image<'a>,
    nodes: &'a [u64],
    rows: usize,
    work: usize,
}

impl<'a> Columns<'a> {
    // As many rows as the first node has, and work for the node that needs most; of a node that is not there, none.
    fn new(image: Image<'a>, nodes: &'a [u64]) -> Columns<'a> {
        let first = nodes.first().and_then(|node| image.node(*node));
        let rows = first.map_or(0, |record| record.rows as usize);
        let mut work = 0;
        for node in nodes {
            work = work.max(node_need(&image, *node).unwrap_or(0) as usize);
        }
        Columns {
            image,
            nodes,
            rows,
            work,
        }
    }

    fn calls(&self, heap: Global) -> Result<Vec<Call<'static>>, AllocError> {
        let lent = Lent {
            entries: self.rows,
            work: self.work,
            claimed: 0,
        };
        let mut calls = Vec::new(heap);
        for node in self.nodes {
            calls.push(Call::Column {
                image: 0,
                node: *node,
                list: None,
                lent,
            })?;
        }
        Ok(calls)
    }
}

// The first of the columns that is refused, and why.
fn first_refused(nodes: &[u64], answers: &[Answer]) -> Option<(u64, RunFault)> {
    for (node, answer) in nodes.iter().zip(answers) {
        if let Answer::Refused(fault) = answer {
            return Some((*node, *fault));
        }
    }
    None
}

// The numbers of the rows, unless a column is refused. Begin is not: no node has more rows than a run may.
fn row_numbers<S: HashState>(
    heap: Global,
    columns: &Columns<'_>,
    state: &S,
) -> Result<Result<Vec<u64>, (u64, RunFault)>, AllocError> {
    let calls = columns.calls(heap)?;
    let mut entries = vec![in heap; 0; columns.rows]?;
    let mut work = vec![in heap; 0; columns.work]?;
    let mut answers = vec![in heap; Answer::Accepted; columns.nodes.len()]?;
    let trace = Trace {
        rows: columns.rows,
        calls: calls.as_slice(),
        images: &[&columns.image],
    };
    let made = replay(trace, state, &mut entries, &mut work, &mut answers);
    if let Err(fault) = made {
        return Ok(Err((0, fault)));
    }
    if let Some(refused) = first_refused(columns.nodes, answers.as_slice()) {
        return Ok(Err(refused));
    }
    Ok(Ok(entries))
}

fn print_numbers(rt: &HostRuntime, numbers: &[u64]) -> Result<(), Failure> {
    let mut out = BufWriter::new(rt.alloc(), rt.stdout())?;
    for number in numbers {
        writeln!(out, "{number:016x}")?;
    }
    out.flush()?;
    Ok(())
}

// A refusal is a line of the output, and ends the program as a failure that says it in words.
pub(crate) fn hash(
    rt: &HostRuntime,
    path: &str,
    nodes: &[u64],
    state: ChosenState,
) -> Result<(), Failure> {
    let heap = rt.alloc();
    let bytes = read_image(rt, path).try_map_err(|error| Ok(Failure::Unreadable(
        String::from_str(heap, path)?,
        error,
    )))?;
    let mut image = Image::empty();
    if let Err(fault) = image.admit(bytes.as_slice()) {
        let (number, node) = fault.numbered();
        println!(rt; "refused {number} {node}")?;
        return Err(Failure::Refused(String::from_str(heap, path)?, Refusal(fault)));
    }
    let columns = Columns::new(image, nodes);
    let numbers = match state {
        ChosenState::Fnv1a(state) => row_numbers(heap, &columns, &state)?,
        ChosenState::SipHash(state) => row_numbers(heap, &columns, &state)?,
    };
    match numbers {
        Ok(numbers) => print_numbers(rt, numbers.as_slice()),
        Err(refused) => {
            let (node, fault) = refused;
            println!(rt; "refused {}", fault.number())?;
            Err(Failure::Column(String::from_str(heap, path)?, node, ColumnRefusal(fault)))
        }
    }
}
