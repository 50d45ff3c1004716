//! A run over time: the panel as the frames of a film, and the Executive's tables as they change.
#![tactic(auto)]

pub mod change_laws;
mod changed_lines;
mod divergence;
mod frame;
mod job_place;
mod key_event;
pub mod laws;
mod recorder;
mod recording;
mod shown;
mod table_film;
mod watched;
mod watching;

pub use divergence::first_difference;
pub use frame::Frame;
pub use job_place::line_place;
pub use recording::{Recording, film};
pub use shown::LastTables;
pub use table_film::{InitialTables, TablesFilm};
pub use watched::film_watched;
pub use watching::{go_to_first, write_changes};
