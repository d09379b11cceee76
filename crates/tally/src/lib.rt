// The account of a page: the rows it takes, and the foot that they give, with the bits that their timing tells at most.
#![tactic(auto)]

pub mod account;
pub mod judge;
pub mod leak;
pub mod line;
