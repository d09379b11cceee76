// The words that a gate is spoken of with: its calls, their answers, and what a reply comes to.
// How a gate predicts and what it promises stands in the definitions beside them.
#![tactic(auto)]

pub mod event;
pub mod release;
pub mod telling;
