//! What the terminal shows, as text for a person: the picture of the panel, and the inspector. It is safe, total and tested;
//! no contract says what it reads.
mod color;
mod face;
mod history;
mod inspector;
mod keyboard;
mod lamps;
mod named_order;
mod picture;
mod segment;

pub use color::ColorMode;
pub use inspector::{push_inspector, push_tables};
pub use picture::{Size, View, render};
