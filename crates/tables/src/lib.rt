// The definitions at numbers that the documents give: each function carries computed lines, or a law at one case.
#![tactic(auto)]

pub mod calls;
pub mod faults;
pub mod hashes;
pub mod nulls;
pub mod rules;
pub mod slots;
pub mod types;
pub mod work;
