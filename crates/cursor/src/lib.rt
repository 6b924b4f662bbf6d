#![tactic(auto)]

pub mod cursor;
pub mod fault;
