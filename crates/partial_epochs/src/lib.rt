//! The law of a long-lived memory: arenas of one memory's words that are used again and again, one for each epoch,
//! and control words that say which epoch is the current one. It is a law over plain data: no code runs here.
#![tactic(auto)]

pub mod law;
pub mod variants;
