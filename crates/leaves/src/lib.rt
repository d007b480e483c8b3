// The hashes of leaf columns, whose rows stand for no other rows.
#![tactic(auto)]

mod bytes;
mod hashing;
mod leaf;
mod number;
mod reader;
mod rows;
mod view;

pub use leaf::hash_leaf;
pub use number::{Wide, element_of};
pub use rows::Rows;
