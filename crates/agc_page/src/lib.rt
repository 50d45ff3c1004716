//! The pages of films and timelines for a browser, and the lines of the runs in them. They are safe, total and tested; no
//! contract says what they read.
#![tactic(auto)]

mod film_text;
mod frame_lines;
mod jobs_record;
mod jobs_timeline;
mod page;
mod relay_words;
mod title;

pub use film_text::{push_film, push_film_pair};
pub use jobs_record::Mark;
pub use jobs_timeline::{JobsPlan, jobs_page};
