#![tactic(auto)]

pub mod fold;
pub mod number;
pub mod settings;
