//! Tests of replays, of the place of a scan in a history, and of the commands of the program, from text to text: plans
//! whose outcomes were worked out by hand, plans that are refused, and devices that fail.
#![tactic(auto)]

#[cfg(test)]
mod commands;
#[cfg(test)]
mod places;
#[cfg(test)]
mod replays;
#[cfg(test)]
mod texts;
