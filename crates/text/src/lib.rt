#![tactic(auto)]

pub mod bytes;
pub mod property;
pub mod text;
