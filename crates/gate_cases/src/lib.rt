// Gates run on cases whose answers were worked out by hand from the rules.
#![tactic(auto)]

#[cfg(test)]
mod gates;
