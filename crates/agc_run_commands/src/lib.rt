//! The subcommands of `agc-study` about runs: `trace`, `profile`, `jobs`, `compare`, `film`, `downlink` and `uplink`. Also what
//! all subcommands share: streams, faults, remarks, symbol files and new files.
#![tactic(auto)]

mod cmd_compare;
mod cmd_downlink;
mod cmd_film;
mod cmd_jobs;
mod cmd_profile;
mod cmd_trace;
mod cmd_uplink;
mod compares;
mod counts;
mod fault;
mod films;
mod inputs;
mod new_files;
mod remarks;
mod sources;
mod streams;
mod timelines;
mod traces;
mod watches;

pub use cmd_compare::{run_compare, write_outcome};
pub use cmd_downlink::run_downlink;
pub use cmd_film::run_film;
pub use cmd_jobs::run_jobs;
pub use cmd_profile::run_profile;
pub use cmd_trace::run_trace;
pub use cmd_uplink::run_uplink;
pub use compares::{DiffOutcome, compare_files};
pub use counts::{Profiled, profile_files};
pub use fault::{AnalysisFault, FAULTY};
pub use films::{FilmPage, film_file_pairs, film_files, record_run};
pub use inputs::{read_symbols, report_fault};
pub use new_files::{check_new_file, check_new_paths, check_paths_beside, is_written};
pub use remarks::{RunStop, remark_on_start, stop_of};
pub use sources::{expanded_source, report_include};
pub use streams::Streams;
pub use traces::{
    TraceError, Traced, remark_service, status_of_trace_error, trace_files, write_text,
};
pub use watches::watch_files;
