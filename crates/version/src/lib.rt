#![tactic(auto)]

mod piece;
pub mod view_version;
