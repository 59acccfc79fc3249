//! AES-128 and AES-128-GCM with a zero IV.
#![tactic(auto)]

mod block;
mod counter;
mod gcm;
mod ghash;
mod sbox;
mod tower;
mod vectors;

pub use block::{Key, encrypt_block};
pub use gcm::{open_in_place, seal_in_place, sealed_opens};
pub use sbox::inverses_are_inverses;
