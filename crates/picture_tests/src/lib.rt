//! Tests of pictures of replays and of their labels. They use what `partial_picture` offers, so that it is proved
//! without them.
#![tactic(auto)]

#[cfg(test)]
mod drawings;
#[cfg(test)]
mod examples;
#[cfg(test)]
mod growths;
#[cfg(test)]
mod labels;
#[cfg(test)]
mod tables;
#[cfg(test)]
mod windows;
