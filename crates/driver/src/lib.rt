// Whole jobs: a gate driven onto a page, and two texts turned into the bytes to print.
#![tactic(auto)]

pub mod job;
pub mod replay;
