// Pages written, read back and looked up, on cases worked out by hand from the rules.
#![tactic(auto)]

#[cfg(test)]
mod lookups;
#[cfg(test)]
mod pages;
#[cfg(test)]
mod readings;
