//! Tables by value and tables by rank: definitions and laws on which tables, versions and runs stand. Nothing here runs.
#![tactic(auto)]

pub mod examples;
pub mod operation_laws;
pub mod rank_laws;
pub mod shelf_laws;
pub mod standing_laws;
pub mod step_laws;
pub mod store_laws;
