#![tactic(auto)]

pub mod begin;
pub mod build;
pub mod current;
pub mod properties;
pub mod versions;
pub mod view;
pub mod view_metadata;
pub mod view_metadata_builder;
pub mod view_update;
