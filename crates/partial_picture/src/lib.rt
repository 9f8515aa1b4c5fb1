//! Pictures of replays, as drawings in SVG and as text for terminals. They are made from the outcome that
//! the replay returns to every caller.
#![tactic(auto)]

mod arrows;
mod columns;
mod command;
mod entries;
mod fault;
mod layout;
mod legend;
mod picture;
mod pixels;
mod spans;
mod svg;
mod text;
mod window;
mod words;

pub use columns::table;
pub use command::{Form, draw};
pub use entries::{Label, labels_of};
pub use fault::{Fault, PictureError};
pub use picture::{Arrow, ArrowKind, Bar, Mark, Picture, Pin, Shape};
pub use pixels::Pixels;
pub use svg::drawing;
pub use text::{fitted, push_escaped};
pub use window::{MOST_STEPS, Span, Window};
pub use words::word_words;
