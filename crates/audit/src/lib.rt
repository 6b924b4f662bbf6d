#![tactic(auto)]

pub mod outcome;
pub mod report;
pub mod run;
