//! The words that ports share, each with values from outside.

mod sizes;
mod trace;
