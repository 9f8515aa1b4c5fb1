//! Tests of the calls in straight lines. They are made on plain words, beside the machine of their port and
//! among the steps of two other ports.
#![tactic(auto)]

#[cfg(test)]
mod beside;
#[cfg(test)]
mod plain;
#[cfg(test)]
mod turns;
