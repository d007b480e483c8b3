// The numbers of columns, and runs, as standard input has them.
ghost use Rattle.std.specs.Prelude.{◌≡◌, ◌^◌, ◌<◌, true, IfSome, length};
ghost use Rattle.columns.specs.Column.{RowsThere, met_rows};
ghost use Rattle.columns.specs.Jobs.{need};
ghost use Rattle.layout.specs.Records.{nodes, record_at};

use crate::line::{Line, Question, State};
use crate::script::{End, Script, UNCLEARED, check_run, check_stays};
use anyhow::{Context, anyhow};
use columns::{Selection, hash_column, node_need};
use hash_state::{Fnv1aState, HashState};
use image::place::Image;
use std::alloc::Global;
use std::io::{BufRead, BufReader, Stdin};

// Words that are lent behind the rows' entries, and in front of the work as claimed: both have to stay.
const PAST: usize = 3;

const CLAIMED: usize = 5;

// How far the lines are read, and what of them agreed.
#[derive(Drop)]
struct Progress {
    line: u64,
    state: State,
    script: Script,
    images: u64,
    columns: u64,
    numbers: u64,
    runs: u64,
    calls: u64,
}

pub(crate) fn check(rt: &HostRuntime) -> anyhow::Result<()> {
    let heap = rt.alloc();
    let mut input = BufReader::new(heap, rt.stdin())?;
    let mut progress = Progress::new(heap);
    let checked = check_images(heap, &mut input, &mut progress);
    let line = progress.line;
    checked.context(format_args!("line {line} of standard input"))?;
    let images = progress.images;
    let columns = progress.columns;
    let numbers = progress.numbers;
    println!(rt; "columns: {columns} columns of {images} images: {numbers} numbers agree")?;
    let runs = progress.runs;
    let calls = progress.calls;
    println!(rt; "runs: {runs} runs of {calls} calls: all answers agree")?;
    Ok(())
}

// Images borrow their bytes, so those of each line are checked by a call of its own.
fn check_images(
    heap: Global,
    input: &mut BufReader<Stdin>,
    progress: &mut Progress,
) -> anyhow::Result<()> {
    let mut next = progress.check_lines(heap, input, &[])?;
    // a count, since nothing tells how many images are to come
    for _ in 0..u64::MAX {
        let Some(bytes) = next else {
            break;
        };
        next = progress.check_admitted(heap, input, bytes)?;
    }
    Ok(())
}

// Puts an image into a place, which stays as it is where there are no bytes.
fn admit<'a>(image: &mut Image<'a>, bytes: &'a [u8]) -> anyhow::Result<()> {
    if bytes.is_empty() {
        return Ok(());
    }
    if let Err(fault) = image.admit(bytes) {
        let (number, node) = fault.numbered();
        return Err(anyhow!("an image is refused: {number} at node {node}"));
    }
    Ok(())
}

// The bytes at a place, or none of them.
fn bytes_at(images: &[Vec<u8>], place: usize) -> &[u8] {
    match images.get(place) {
        Some(bytes) => bytes.as_slice(),
        None => &[],
    }
}

impl Progress {
    fn new(heap: Global) -> Progress {
        Progress {
            line: 0,
            state: State::Fnv1a(Fnv1aState::new()),
            script: Script::new(heap),
            images: 0,
            columns: 0,
            numbers: 0,
            runs: 0,
            calls: 0,
        }
    }

    // Checks the lines after one that brings these images, each in its place.
    fn check_admitted(
        &mut self,
        heap: Global,
        input: &mut BufReader<Stdin>,
        images: Vec<Vec<u8>>,
    ) -> anyhow::Result<Option<Vec<Vec<u8>>>> {
        let mut first = Image::empty();
        let mut second = Image::empty();
        let mut third = Image::empty();
        admit(&mut first, bytes_at(images.as_slice(), 0))?;
        admit(&mut second, bytes_at(images.as_slice(), 1))?;
        admit(&mut third, bytes_at(images.as_slice(), 2))?;
        if images.len() > 3 {
            return Err(anyhow!("too many images"));
        }
        let before = self.columns;
        let places = [&first, &second, &third];
        let next = self.check_lines(heap, input, &places[..images.len()])?;
        // images of runs are not counted
        if self.columns > before {
            self.images = self.images.saturating_add(1);
        }
        Ok(next)
    }

    // Checks lines until one brings other images, whose bytes it gives, or there are no more.
    fn check_lines(
        &mut self,
        heap: Global,
        input: &mut BufReader<Stdin>,
        images: &[&Image<'_>],
    ) -> anyhow::Result<Option<Vec<Vec<u8>>>> {
        for line in input.split(heap, b'\n') {
            self.line = self.line.saturating_add(1);
            match Line::parse(heap, line?.as_slice())? {
                Some(Line::PassedOver) => {}
                Some(Line::Images(bytes)) => return Ok(Some(bytes)),
                Some(Line::State(state)) => self.state = state,
                Some(Line::Column(question)) => self.check_column(heap, images, &question)?,
                Some(Line::Run(script)) => self.script = script,
                Some(Line::Call(mut scripted)) => {
                    scripted.line = self.line;
                    self.script.steps.push(scripted)?;
                }
                Some(Line::End(end)) => self.check_script(heap, images, &end)?,
                None => return Err(anyhow!("not understood")),
            }
        }
        Ok(None)
    }

    // The column is one of the first image.
    fn check_column(
        &mut self,
        heap: Global,
        images: &[&Image<'_>],
        question: &Question,
    ) -> anyhow::Result<()> {
        let Some(image) = images.first() else {
            return Err(anyhow!("no image"));
        };
        match self.state {
            State::Fnv1a(state) => check_numbers(heap, &state, image, question)?,
            State::SipHash(state) => check_numbers(heap, &state, image, question)?,
        }
        self.columns = self.columns.saturating_add(1);
        self.numbers = self.numbers.saturating_add(question.numbers.len() as u64);
        Ok(())
    }

    fn check_script(
        &mut self,
        heap: Global,
        images: &[&Image<'_>],
        end: &End,
    ) -> anyhow::Result<()> {
        match self.state {
            State::Fnv1a(state) => {
                check_run(heap, &state, images, &self.script, end, &mut self.line)?
            }
            State::SipHash(state) => {
                check_run(heap, &state, images, &self.script, end, &mut self.line)?
            }
        }
        self.runs = self.runs.saturating_add(1);
        self.calls = self.calls.saturating_add(self.script.steps.len() as u64);
        Ok(())
    }
}

// Whether each row that is met is there.
fn are_there(list: Option<&[u32]>, rows: u32) -> bool
    ensures { result ≡ true → RowsThere rows list.entry }
{
    let Some(list) = list else {
        return true;
    };
    list.iter().all(|row| *row < rows)
}

// The words of work that a column needs which meets so many words, or none where there is no such column.
fn need_of(image: &Image<'_>, node: u64, list: Option<&[u32]>, count: usize) -> Option<usize>
    ensures there { IfSome result (λ _. node < nodes image.now.bytes.now) }
    ensures rows { IfSome result (λ _. RowsThere (record_at image.now.bytes.now node).rows list.entry) }
    ensures count { IfSome result (λ _. met_rows (record_at image.now.bytes.now node).rows list.entry ≡ count) }
    ensures few { IfSome result (λ _. count < 2 ^ 32) }
    ensures need { IfSome result (λ n. n ≡ need image.now.bytes.now node) }
    ensures fits { IfSome result (λ n. n < 2 ^ 32) }
{
    let rows = image.node(node)?.rows;
    let met = match list {
        Some(list) => list.len(),
        None => rows as usize,
    };
    if met != count || count > u32::MAX as usize || !are_there(list, rows) {
        return None;
    }
    Some(node_need(image, node)? as usize)
}

// Entries that count up from one on.
fn count_up(entries: &mut [u64], from: u64)
    ensures { length entries.new ≡ length entries.old }
{
    for (j, entry) in entries.iter_mut().enumerate() {
        *entry = from.wrapping_add(j as u64);
    }
}

// Compares the numbers that a column leaves in entries with those of a question.
fn check_numbers<S: HashState>(
    heap: Global,
    state: &S,
    image: &Image<'_>,
    question: &Question,
) -> anyhow::Result<()> {
    let list = match &question.list {
        Some(list) => Some(list.as_slice()),
        None => None,
    };
    let count = question.numbers.len();
    let Some(need) = need_of(image, question.node, list, count) else {
        return Err(anyhow!("no such column, or not so many numbers"));
    };
    let mut entries = vec![in heap; 0; count + PAST]?;
    let mut work = vec![in heap; UNCLEARED; CLAIMED + need]?;
    count_up(entries.as_mut_slice(), question.entry);
    let selection = Selection {
        image,
        node: question.node,
        list,
    };
    hash_column(
        selection,
        question.first,
        state,
        entries.as_mut_slice(),
        work.as_mut_slice(),
        CLAIMED,
    );
    compare(entries.as_slice(), question)?;
    check_stays(work.as_slice(), CLAIMED)
}

// Entries behind the numbers have to be as they were.
fn compare(entries: &[u64], question: &Question) -> anyhow::Result<()> {
    for (j, entry) in entries.iter().enumerate() {
        let before = question.entry.wrapping_add(j as u64);
        let number = question.numbers.get(j).copied().unwrap_or(before);
        if *entry != number {
            return Err(anyhow!("row {j} has {entry:#x} and not {number:#x}"));
        }
    }
    Ok(())
}
