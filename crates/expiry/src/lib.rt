#![tactic(auto)]

pub mod expire;
pub mod log;
