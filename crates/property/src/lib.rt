#![tactic(auto)]

pub mod property;
