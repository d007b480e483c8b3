// The image place, and the slots of an image.
#![tactic(auto)]

pub mod admit;
pub mod place;
pub mod slot;
pub mod value;
