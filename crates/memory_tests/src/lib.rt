//! Tests of single openings: worked rows in one thread, and runs of many threads that are judged from
//! outside. They use what the memory offers, so that it is proved without them.
#![tactic(auto)]

#[cfg(test)]
mod calls;
#[cfg(test)]
mod closings;
#[cfg(test)]
mod growths;
#[cfg(test)]
mod memories;
#[cfg(test)]
mod reopenings;
#[cfg(test)]
mod rows;
#[cfg(test)]
mod threads;
#[cfg(test)]
mod workers;
