//! What the answers of loads say in lawful words: a getSet finds each port that joined before it, and an
//! embedded scan ends with values that stood together.
#![tactic(auto)]

pub mod law;
