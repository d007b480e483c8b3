// The layout of an image: its numbers, its records and the types of its columns.
#![tactic(auto)]

pub mod bytes;
pub mod column;
pub mod data_type;
pub mod kind;
pub mod record;
