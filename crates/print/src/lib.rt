#![tactic(auto)]

pub mod print;
