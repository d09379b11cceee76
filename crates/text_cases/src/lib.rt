// Fields, lists and schedules, by tables of cases worked out by hand from the rules.
#![tactic(auto)]

#[cfg(test)]
mod fields;
#[cfg(test)]
mod lists;
#[cfg(test)]
mod schedules;
