// Files of rows: lists and schedules, what is refused in each, and a list paired with its schedule.
#![tactic(auto)]

pub mod fault;
pub mod file;
pub mod list;
pub mod pair;
pub mod schedule;
