//! Tests of the long-lived memory. They use what it offers, so that it is proved without them.
#![tactic(auto)]

#[cfg(test)]
mod calls;
#[cfg(test)]
mod conditional;
#[cfg(test)]
mod growths;
#[cfg(test)]
mod memories;
#[cfg(test)]
mod openings;
#[cfg(test)]
mod overtaken;
#[cfg(test)]
mod stamped;
