//! Tests of the pipeline, a client of the long-lived memory. They use what it offers, so that it is proved without
//! them.
#![tactic(auto)]

#[cfg(test)]
mod pipeline;
