// Compares hashes with published ones, and the numbers of columns and the answers of runs with those that were worked out
// apart from this code.
#![tactic(auto)]

mod line;
mod published;
mod rows;
mod script;
mod tables;

fn main(rt: HostRuntime) -> anyhow::Result<()> {
    published::check(&rt)?;
    rows::check(&rt)
}
