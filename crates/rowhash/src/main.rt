// Row hashes of archive tables: the numbers of a column, an image for a person, and commands on images and runs.
#![tactic(auto)]

mod answer;
mod arguments;
mod command;
mod failure;
mod files;
mod hash;
mod lending;
mod numbers;
mod replay;
mod run;
mod run_command;
mod show;
mod slots;
mod stage;
mod state;
mod types;

use arguments::Invocation;
use failure::Failure;
use std::env;
use std::process::ExitCode;

const HELP: &str = "\
rowhash: row hashes of archive tables

  rowhash hash FILE [NODE ..] [--state STATE]
                            the number of each row over these nodes, or over node 0, as 16
                            hexadecimal digits; STATE is fnv1a (if left out), fnv1a:START or
                            siphash:K0:K1
  rowhash show FILE         describe an image: a line for each node
  rowhash show FILE NODE    a line for each row of a node, with its slot
  rowhash replay            answer commands from standard input, each by one line
  rowhash help              this text
  rowhash --version         the version

Commands of replay (numbers are decimal, or hexadecimal after 0x):

  image HEX                 admit an image, two digits a byte
  image-file PATH           admit an image from a file
  slot NODE ROW             the slot of a row
  state fnv1a [START]       hash under FNV-1a from now on; ends the run
  state siphash K0 K1       the same under SipHash-2-4
  begin [W ..]              a new run with a row for each entry
  column NODE               accept a column: row j of the run meets row j of the node
  column NODE list [R ..]   the same, but row j meets the row that the list names for it
  keep [R ..]               keep the rows that a list names, in its order
  read R                    the number of a row, and how many columns are accepted
  words                     the entries that are lent to the calls of the run
  room N                    lend so many entries, of which new ones are zeros
  work N                    lend so many words of work, 1048576 at first
  claimed N                 so many of them are claimed, 0 at first
  # ..                      passed over, as blank lines are

Example:

  rowhash show examples/passes.img
  rowhash hash examples/passes.img 1 2 --state siphash:1:2
  printf 'image-file examples/passes.img\\nslot 1 0\\n' | rowhash replay
  printf 'image-file examples/passes.img\\nbegin 0 0\\ncolumn 1 list 3 0\\nread 0\\n' | rowhash replay";

fn perform(rt: &HostRuntime) -> Result<(), Failure> {
    let args = env::args(rt).map_err(Failure::Arguments)?;
    match Invocation::parse(rt.alloc(), args)? {
        Invocation::Help => rt.println(HELP)?,
        Invocation::Version => rt.println("rowhash 0.1.0")?,
        Invocation::Hash(path, nodes, state) => hash::hash(
            rt,
            path.as_str(),
            nodes.as_slice(),
            state,
        )?,
        Invocation::Show(path, node) => show::show(rt, path.as_str(), node)?,
        Invocation::Replay => replay::replay(rt)?,
    }
    Ok(())
}

fn main(rt: HostRuntime) -> ExitCode {
    let Err(failure) = perform(&rt) else {
        return ExitCode::SUCCESS;
    };
    let _ = eprintln!(rt; "rowhash: {failure}");
    if let Failure::NoCommand = failure {
        let _ = rt.eprintln(HELP);
    }
    ExitCode::FAILURE
}
