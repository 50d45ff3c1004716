//! The pages of a film and of a timeline, without the runs in them.
mod head;
mod jobs_head;
mod jobs_script;
mod script;
mod tables;

pub use head::HEAD;
pub use jobs_head::JOBS_HEAD;
pub use jobs_script::JOBS_TAIL;
pub use script::TAIL;
pub use tables::TABLES;
