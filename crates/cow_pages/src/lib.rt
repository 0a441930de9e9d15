//! Lists that share their pages: a copy of a list costs one link, and a change costs a page on each level of a tree of pages.
#![tactic(auto)]

mod copying;
mod cut;
mod edit;
mod in_place;
mod making;
mod memory;
mod paged;
mod pages;
mod reading;
mod rooted;

pub use cut::Cut;
pub use memory::OutOfMemory;
pub use paged::Paged;

#[cfg(test)]
mod tests;
