// Worked examples: sources, paces and whole jobs run on cases whose answers were worked out by hand from the rules.
#![tactic(auto)]

#[cfg(test)]
mod benches;
#[cfg(test)]
mod buckets;
#[cfg(test)]
mod jobs;
#[cfg(test)]
mod paces;
#[cfg(test)]
mod traces;
