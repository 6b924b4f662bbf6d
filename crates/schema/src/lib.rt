#![tactic(auto)]

pub mod kind;
pub mod sealed;
