// Admission: whether a byte string is an image, and if not, its first fault.
#![tactic(auto)]

mod buffers;
pub mod check;
pub mod fault;
mod node;
mod order;
mod reach;
mod table;
mod views;
