//! Lawful words: what the words of a memory hold, which port each block belongs to, and the history with
//! which they agree. The laws say how each kind of step keeps them lawful. Nothing here knows what a step
//! is for.
#![tactic(auto)]

pub mod law;
