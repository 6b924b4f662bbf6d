#![tactic(auto)]

pub mod dialects;
pub mod time;
