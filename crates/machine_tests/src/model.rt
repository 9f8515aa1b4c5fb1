//! Outcomes that were worked out by hand, and outcomes with one thing changed that makes them unlawful.

mod changed;
mod rows;
mod worked;
