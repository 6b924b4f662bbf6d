#![tactic(auto)]

pub mod fault;
pub mod numbered;
pub mod register;
pub mod table;
