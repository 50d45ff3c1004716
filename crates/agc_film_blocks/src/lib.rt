//! What the page of a film has after its runs: the display in words, and the plot of samples.
#![tactic(auto)]

mod film_blocks;
mod film_plot;
mod film_script;

pub use film_blocks::{FilmBlock, film_block};
