//! Tests of a call's parts: the checker of outcomes, the set of intervals, the words that ports share, the active set, the
//! embedded scan, and the machine of one port. They use what these crates offer, so that each is proved without them.
#![tactic(auto)]

#[cfg(test)]
mod active_set;
#[cfg(test)]
mod embedded;
#[cfg(test)]
mod intervals;
#[cfg(test)]
mod machine;
#[cfg(test)]
mod model;
#[cfg(test)]
mod words;
