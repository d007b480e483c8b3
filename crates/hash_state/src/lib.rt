// Hashers, the states that build them, and the values that tell them what they are.
#![tactic(auto)]

mod combine;
mod fnv;
mod hasher;
mod siphash;
mod value;

pub use combine::combine_hashes;
pub use fnv::{Fnv1aHasher, Fnv1aState};
pub use hasher::{BuildHasher, HashState, Hasher};
pub use siphash::{SipHashState, SipHasher};
pub use value::{
    Binary, Float, Float16, Float32, Float64, FloatBits, HashValue, Integer, Nothing, PlainValue,
    Text, View, hash_entry, hash_later,
};
