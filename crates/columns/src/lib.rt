// The number of every row of every column.
#![tactic(auto)]

mod clear;
mod column;
mod fold;
mod job;
mod met;
mod needs;
mod nested;
mod node;
mod reach;
mod region;
mod run_ends;
mod selection;
mod span;
mod walk;

pub use column::hash_column;
pub use needs::node_need;
pub use selection::Selection;
