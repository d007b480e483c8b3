// Runs: the number of every row over several columns, with what holds of it over any list of calls.
#![tactic(auto)]

pub mod account;
mod begin;
pub mod call;
mod column;
pub mod fault;
mod judge;
mod keep;
mod read;
pub mod replay;
pub mod run;
mod stage;
