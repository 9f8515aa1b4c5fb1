//! Tests of the texts of plans, outcomes and reports, and of devices that fail.
#![tactic(auto)]

#[cfg(test)]
mod growths;
#[cfg(test)]
mod plans;
#[cfg(test)]
mod readers;
#[cfg(test)]
mod reports;
#[cfg(test)]
mod scans;
#[cfg(test)]
mod texts;
#[cfg(test)]
mod writers;
