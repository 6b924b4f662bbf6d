#![tactic(auto)]

pub mod hex;
pub mod read;
pub mod write;
