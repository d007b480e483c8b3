// Commands from standard input, each answered by one line.
ghost use Rattle.std.specs.Prelude.{◌≡◌, IfOk};
ghost use Rattle.admission.specs.FirstFault.{fault_of, first_fault};
ghost use Rattle.layout.specs.Records.{nodes};

use crate::answer::{Answer, Words};
use crate::command::Command;
use crate::files::read_image;
use crate::run::Run;
use crate::run_command::RunCommand;
use crate::slots::SlotAnswer;
use admission::fault::ImageFault;
use columns::Selection;
use image::place::Image;
use std::io;
use std::io::{BufRead, BufReader, Stdin};
use std::str::from_utf8;

// Where lines are answered, and the image that they ask of.
#[derive(Clone, Copy)]
struct Session<'a> {
    rt: &'a HostRuntime,
    image: Image<'a>,
}

// Begins with no bytes, which are no image, so that the empty one stands. An image borrows its bytes, so each has a
// session of its own, until another is accepted. The run goes on through all.
pub(crate) fn replay(rt: &HostRuntime) -> io::Result<()> {
    let mut input = BufReader::new(rt.alloc(), rt.stdin())?;
    let mut bytes = Vec::new(rt.alloc());
    let mut run = Run::new(rt.alloc())?;
    // a count, since nothing tells how many images are to come
    for _ in 0..u64::MAX {
        match Session::new(rt, bytes.as_slice()).answer_lines(&mut run, &mut input)? {
            Some(next) => bytes = next,
            None => break,
        }
    }
    Ok(())
}

// How many nodes the bytes have as an image, or why they are none.
fn count_nodes(bytes: &[u8]) -> Result<u32, ImageFault>
    ensures fault { fault_of result ≡ first_fault bytes.now }
    ensures count { IfOk result (λ n. n ≡ nodes bytes.now) }
{
    let mut image = Image::empty();
    image.admit(bytes)?;
    Ok(image.node_count())
}

// A blank line, or a comment.
fn is_passed_over(line: &[u8]) -> bool {
    matches!(line, [b'#', ..]) || line.trim_ascii().is_empty()
}

impl<'a> Session<'a> {
    fn new(rt: &'a HostRuntime, bytes: &'a [u8]) -> Session<'a> {
        let mut image = Image::empty();
        let _ = image.admit(bytes);
        Session { rt, image }
    }

    // Answers lines until one brings another image, whose bytes it gives, or there are no more.
    fn answer_lines(
        &self,
        run: &mut Run,
        input: &mut BufReader<Stdin>,
    ) -> io::Result<Option<Vec<u8>>> {
        // one buffer for all lines: `split` allocates one for each, which takes longer than most lines themselves
        let mut line = Vec::new(self.rt.alloc());
        for _ in 0..u64::MAX {
            line.clear();
            if input.read_until(b'\n', &mut line)? == 0 {
                break;
            }
            let bytes = self.answer_line(run, line.as_slice())?;
            if bytes.is_some() {
                return Ok(bytes);
            }
        }
        Ok(None)
    }

    // Answers a line unless it is passed over, and gives the bytes of an image that it brings.
    fn answer_line(&self, run: &mut Run, line: &[u8]) -> io::Result<Option<Vec<u8>>> {
        if is_passed_over(line) {
            return Ok(None);
        }
        let Ok(text) = from_utf8(line) else {
            self.rt.println("not understood")?;
            return Ok(None);
        };
        match Command::parse(self.rt.alloc(), text)? {
            Some(Command::Image(bytes)) => return self.answer_image(bytes),
            Some(Command::ImageFile(path)) => return self.answer_file(path),
            Some(Command::Slot(node, row)) => {
                self.rt.println(SlotAnswer(self.image.slot(node, row)))?;
            }
            Some(Command::Run(command)) => self.answer_run(run, command)?,
            None => self.rt.println("not understood")?,
        }
        Ok(None)
    }

    // A column of all rows, or of those that a list names.
    fn answer_column(&self, run: &mut Run, node: u64, list: Option<&[u32]>) -> Answer {
        let image = self.image;
        run.column(Selection {
            image: &image,
            node,
            list,
        })
    }

    fn answer_run(&self, run: &mut Run, command: RunCommand) -> io::Result<()> {
        let answer = match command {
            RunCommand::State(state) => run.set_state(state),
            RunCommand::Work(words) => run.set_work(self.rt.alloc(), words)?,
            RunCommand::Claimed(words) => run.set_claimed(words),
            RunCommand::Begin(entries) => run.begin(entries),
            RunCommand::Room(words) => run.set_room(words)?,
            RunCommand::Column(node, list) => self.answer_column(run, node, list.as_deref()),
            RunCommand::Keep(list) => run.keep(list.as_slice()),
            RunCommand::Read(row) => run.read(row),
            RunCommand::Words => return self.answer_words(run),
        };
        self.rt.println(answer)
    }

    fn answer_words(&self, run: &Run) -> io::Result<()> {
        match run.words() {
            Some(words) => self.rt.println(Words(words)),
            None => self.rt.println(Answer::NoRun),
        }
    }

    fn answer_file(&self, path: &str) -> io::Result<Option<Vec<u8>>> {
        match read_image(self.rt, path) {
            Ok(bytes) => self.answer_image(bytes),
            Err(_) => {
                println!(self.rt; "unreadable {path}")?;
                Ok(None)
            }
        }
    }

    fn answer_image(&self, bytes: Vec<u8>) -> io::Result<Option<Vec<u8>>> {
        match count_nodes(bytes.as_slice()) {
            Ok(count) => {
                println!(self.rt; "admitted {count}")?;
                Ok(Some(bytes))
            }
            Err(fault) => {
                let (number, node) = fault.numbered();
                println!(self.rt; "refused {number} {node}")?;
                Ok(None)
            }
        }
    }
}
