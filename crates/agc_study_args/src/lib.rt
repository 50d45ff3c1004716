//! The arguments of `agc-study` as data, and what they name: places, channels, files and runs.
#![tactic(auto)]

mod args;
mod conversion;
mod joined;
mod laws;
mod locations;
mod named_list;
mod read_file;
mod rope_read;
mod runs;
mod until;
mod words_apart;

pub use args::{
    Args, CheckArgs, CompareArgs, ConvertArgs, DownlinkArgs, DumpArgs, FilmArgs, JobsArgs,
    ListArgs, ListStyle, MOST_DUMPS, MOST_MARKS, MergeArgs, Moved, NAME, ObservedArgs,
    OperationsArgs, PatchArgs, ProfileArgs, RepairArgs, ReportArgs, RunOptions, SampleArgs,
    SampleTimes, SumsArgs, TraceArgs, UplinkArgs, WeaveArgs, WordsArgs,
};
pub use conversion::{ConvertedRope, convert_rope, dump_text, read_dump};
pub use laws::{a_listed_operand_is_addressed, a_run_stops_at_the_resolved_location};
pub use locations::{LocationOption, resolve_at, resolve_locations};
pub use named_list::list_with_names;
pub use read_file::{ReadFile, open_file, remark_on_file};
pub use rope_read::{RopeRead, read_any_rope};
pub use runs::{RunInputs, Start, open_run, read_machine, read_machine_as, read_start};
pub use until::resolve_until;
pub use words_apart::{LinedRope, text_of_words_apart};
