//! The parsed arguments of `agc-study`, one struct for each subcommand.
use agc_dump::Radix;
use agc_load::RunFiles;
use agc_mend::{BitChange, Reading};
use agc_store::RopeForm;
use agc_trace::{DiffBy, Layout, Notation, Selection, Span};

/// The program name used in messages.
pub const NAME: &str = "agc-study";

/// The parsed command line: a subcommand with its arguments.
#[derive(Debug, Drop)]
pub enum Args {
    List(ListArgs),
    Weave(WeaveArgs),
    Check(CheckArgs),
    Trace(TraceArgs),
    Operations(OperationsArgs),
    Profile(ProfileArgs),
    Jobs(JobsArgs),
    Sample(SampleArgs),
    Downlink(DownlinkArgs),
    Uplink(UplinkArgs),
    Compare(CompareArgs),
    Film(FilmArgs),
    Convert(ConvertArgs),
    Repair(RepairArgs),
    Patch(PatchArgs),
    Sums(SumsArgs),
    Merge(MergeArgs),
    Words(WordsArgs),
}

/// How a run begins and where it stops.
#[derive(Debug, Drop)]
pub struct RunOptions {
    /// The form of the rope file.
    pub form: RopeForm,
    /// Whether words with wrong parity are read too (`--ignore-parity`).
    pub ignores_parity: bool,
    /// The cycle at which the run stops at the latest.
    pub limit: u64,
    /// The value of `--until`.
    pub until: Option<String>,
    /// The listings whose source lines are printed too (`--listing`): that of the first run, and that of the second.
    pub listings: Vec<String>,
}

/// How `list` prints a rope.
#[derive(Clone, Copy, Debug, PartialEq, Eq)]
pub enum ListStyle {
    /// A line for each word: location, word and order.
    Lines,
    /// A source (`--source`).
    Source,
    /// A page in the language of the flight listings (`--style yul`).
    Yul,
}

/// Arguments of `list`: a rope file, or one bank of it.
#[derive(Debug, Drop)]
pub struct ListArgs {
    pub rope: String,
    pub form: RopeForm,
    /// The value of `--bank`.
    pub bank: Option<String>,
    /// The symbol file (`--names`).
    pub names: Option<String>,
    pub style: ListStyle,
    /// Whether words with wrong parity are read too (`--ignore-parity`).
    pub ignores_parity: bool,
    /// Whether words that hold +0 are printed too (`--all`).
    pub shows_zeros: bool,
    /// The bank of the file's first word (`--first-bank`), if the file is some modules of a rope.
    pub first_bank: Option<u8>,
    /// The values of `--interpretive`: words to print as interpretive code.
    pub interpretive: Vec<String>,
    /// The value of `--follow`: the interpreter's place, behind whose calls interpretive code stands.
    pub follow: Option<String>,
}

/// Arguments of `weave`: a text file to assemble.
#[derive(Debug, Drop)]
pub struct WeaveArgs {
    pub text: String,
    pub form: RopeForm,
    /// The file that the symbols of the text are written to (`--write-names`).
    pub write_names: Option<String>,
    /// The file that the listing of the text is written to (`--write-listing`).
    pub write_listing: Option<String>,
    /// Whether these files may exist already (`--force`).
    pub force: bool,
    /// Whether the banks end with sums (`--sums`).
    pub adds_sums: bool,
}

/// Arguments of `check`: at least one file to check.
#[derive(Debug, Drop)]
pub struct CheckArgs {
    /// A rope and a script.
    pub run: Option<RunFiles>,
    /// A rope without a script, whose damage is looked for.
    pub rope: Option<String>,
    /// A text file of live keys.
    pub keys: Option<String>,
    /// The text file of a rope, in the form that `weave` reads.
    pub listing: Option<String>,
    pub form: RopeForm,
    /// The bank of the first word of a rope without a script (`--first-bank`), if it is some modules of a rope.
    pub first_bank: Option<u8>,
    /// The page on a rope without a script (`--report`).
    pub report: Option<ReportArgs>,
}

/// The page that `check --report` writes.
#[derive(Debug, Drop)]
pub struct ReportArgs {
    /// The new file for it.
    pub page: String,
    /// Another rope that it shows too (`--beside`).
    pub beside: Option<String>,
    /// The form of the other rope (`--form-b`).
    pub other_form: RopeForm,
}

/// Arguments of `trace`: a run, and which of its lines to print.
#[derive(Debug, Drop)]
pub struct TraceArgs {
    pub files: RunFiles,
    pub options: RunOptions,
    pub selection: Selection,
    /// The values of `--at` and `--cell`, and those of `--channel` that are no numbers: they may be symbols, and are not
    /// in the selection yet.
    pub at: Vec<String>,
    pub cell: Vec<String>,
    pub channel: Vec<String>,
    /// The symbol file (`--names`).
    pub names: Option<String>,
    /// How to print what operands held (`--operands`, `--decimal`); `None` if that is not printed.
    pub operands: Option<Notation>,
}

/// Arguments of `trace --interpretive`: a run whose operations of the interpretive language are printed.
#[derive(Debug, Drop)]
pub struct OperationsArgs {
    pub files: RunFiles,
    pub options: RunOptions,
    /// The value of `--interpretive`: the interpreter's places and cells.
    pub interpreter: String,
    /// The range of cycles: operations that begin in it are printed.
    pub span: Span,
    /// The symbol file (`--names`).
    pub names: Option<String>,
}

/// Arguments of `profile`: a run, and what to print about it.
#[derive(Debug, Drop)]
pub struct ProfileArgs {
    pub files: RunFiles,
    pub options: RunOptions,
    /// The range of cycles: boundaries that begin in it are counted.
    pub span: Span,
    pub layout: Layout,
    /// Whether to print every word of the rope, including the words that never ran.
    pub is_whole: bool,
    /// The symbol file (`--names`).
    pub names: Option<String>,
}

/// Arguments of `jobs`: a run whose Executive tables are printed.
#[derive(Debug, Drop)]
pub struct JobsArgs {
    pub files: RunFiles,
    pub options: RunOptions,
    /// The value of `--watch`.
    pub watch: String,
    /// The range of cycles in which changes are printed.
    pub span: Span,
    /// The symbol file (`--names`).
    pub names: Option<String>,
    /// The new file for a page that shows who had the processor, in place of the lines (`--timeline`).
    pub timeline: Option<String>,
    /// The values of `--mark`: places whose orders the page marks.
    pub marks: Vec<String>,
}

/// The most values of `--mark`.
pub const MOST_MARKS: usize = 8;

/// Which states of a run `sample` prints.
#[derive(Debug, Drop)]
pub enum SampleTimes {
    /// One each time that the cycle has reached a multiple of this number (`--every`).
    Every(u64),
    /// Those in which the order at a place comes next: the value of `--at`.
    At(String),
    /// Those in which a word of a quantity has changed (`--changes`).
    Changes,
}

/// Arguments of `sample`: a run whose quantities are printed.
#[derive(Debug, Drop)]
pub struct SampleArgs {
    pub files: RunFiles,
    pub options: RunOptions,
    /// The file of quantities (`--quantities`).
    pub quantities: String,
    pub times: SampleTimes,
    /// The range of cycles in which states are printed.
    pub span: Span,
    /// The symbol file (`--names`).
    pub names: Option<String>,
    /// Whether a zero whose first word is -0 is printed as `-0` (`--zeros`).
    pub shows_minus_zero: bool,
}

/// Arguments of `downlink`: a log, and the lists that it has.
#[derive(Debug, Drop)]
pub struct DownlinkArgs {
    /// The file of lists.
    pub lists: String,
    /// What `agc --log` has printed.
    pub log: String,
}

/// Arguments of `uplink`: keys to send from the ground, and when.
#[derive(Debug, Drop)]
pub struct UplinkArgs {
    pub keys: String,
    /// The cycle of the first bit (`--from`).
    pub from: u64,
    /// The cycles from key to key (`--every`).
    pub every: u64,
    /// The cycles from bit to bit (`--bits`).
    pub bits: u64,
}

/// Arguments of `compare`: two runs.
#[derive(Debug, Drop)]
pub struct CompareArgs {
    pub files: RunFiles,
    /// The files of the right run.
    pub other: RunFiles,
    pub options: RunOptions,
    /// The form of the right run's rope file (`--form-b`).
    pub other_form: RopeForm,
    /// How to compare what the runs show; `None` compares them boundary by boundary.
    pub shown: Option<ObservedArgs>,
    /// The symbol file of both runs, or only of the left one if the right one has its own.
    pub names: Option<String>,
    /// The symbol file of the right run, if it has its own.
    pub other_names: Option<String>,
}

/// How to compare what two runs show.
#[derive(Clone, Copy, Debug, PartialEq, Eq)]
pub struct ObservedArgs {
    pub what: DiffBy,
    /// Whether to print the result in one line (`--brief`).
    pub is_brief: bool,
}

/// Arguments of `film`: one run, or two side by side.
#[derive(Debug, Drop)]
pub struct FilmArgs {
    pub files: RunFiles,
    /// The files of the right run.
    pub other: Option<RunFiles>,
    pub options: RunOptions,
    /// The part of the run to film.
    pub part: Span,
    /// The value of `--watch`.
    pub watch: Option<String>,
    /// The symbol file (`--names`).
    pub names: Option<String>,
    /// The file of verbs and nouns, for the display in words (`--nouns`).
    pub nouns: Option<String>,
    /// The table of samples of the left run, for the plot (`--samples`).
    pub samples: Option<String>,
}

/// Arguments of `convert`: a rope file, its reading, and that of the result.
#[derive(Debug, Drop)]
pub struct ConvertArgs {
    pub rope: String,
    pub before: Reading,
    /// The change of the bits of all words, which is undone first (`--bits`).
    pub change: BitChange,
    pub after: Reading,
    /// Whether words with wrong parity are accepted, and their parity bits made right.
    pub ignores_parity: bool,
    /// The bank of the file's first word (`--first-bank`), if the file is some modules of a rope.
    pub first_bank: Option<u8>,
    /// By how much all words of the file are in wrong places, which is undone (`--moved`).
    pub moved: Moved,
    /// The banks to write, in this order; at most 36. `NO_BANK` is a bank without words. All banks if there are none.
    pub banks: Vec<u8>,
    /// Whether all words whose parity bits were made right are printed, not only twenty (`--all`).
    pub shows_all: bool,
    /// How the words of the file are written, if it is a text (`--from-text`).
    pub from_text: Option<Radix>,
    /// How the words of the result are written, if it is a text (`--to-text`).
    pub to_text: Option<Radix>,
}

/// Where the words of a file are.
#[derive(Clone, Copy, Debug, PartialEq, Eq)]
pub enum Moved {
    /// In their places.
    Nowhere,
    /// One place on: the first word of the file is none of the rope.
    On,
    /// One place back: the first word of the rope is lost.
    Back,
}

/// Arguments of `repair`: a rope file in the form with parity.
#[derive(Debug, Drop)]
pub struct RepairArgs {
    pub rope: String,
    /// The most repairs to print for each word.
    pub most: usize,
    /// Whether the file has parity bits even if none of them is 1 (`--form parity`).
    pub has_parity: bool,
    /// Whether the words of stuck columns are repaired, and no others (`--stuck`).
    pub mends_columns: bool,
    /// The bank of the file's first word (`--first-bank`), if the file is some modules of a rope.
    pub first_bank: Option<u8>,
}

/// Arguments of `patch`: a rope file, and the words to put into it.
#[derive(Debug, Drop)]
pub struct PatchArgs {
    pub rope: String,
    /// The text file of the words, a line for each; with `banks` the rope file of their words.
    pub patch: Option<String>,
    /// The banks into which the words of the other file are put (`--banks`).
    pub banks: Vec<u8>,
    /// The banks whose sums are made right after that (`--sum`).
    pub sums: Vec<u8>,
    pub form: RopeForm,
}

/// Arguments of `sums`: a rope file.
#[derive(Debug, Drop)]
pub struct SumsArgs {
    pub rope: String,
    pub form: RopeForm,
    /// The bank of the file's first word (`--first-bank`), if the file is some modules of a rope.
    pub first_bank: Option<u8>,
}

/// The most dumps that `merge` takes.
pub const MOST_DUMPS: usize = 16;

/// A dump, and how it is read.
#[derive(Debug, Drop)]
pub struct DumpArgs {
    pub file: String,
    pub before: Reading,
    /// The change of the bits of all words, which is undone first (`--bits`).
    pub change: BitChange,
    /// The bank of the file's first word (`--first-bank`), if the file is some modules of a rope.
    pub first_bank: Option<u8>,
}

/// Arguments of `merge`: two to sixteen dumps of one rope.
#[derive(Debug, Drop)]
pub struct MergeArgs {
    pub dumps: Vec<DumpArgs>,
    /// Whether the rope is written if words are undecided (`--accept`).
    pub accepts: bool,
}

/// Arguments of `compare --words`: two rope files, or two sources.
#[derive(Debug, Drop)]
pub struct WordsArgs {
    pub rope: String,
    pub other: String,
    /// Whether the files are sources (`--source`).
    pub are_sources: bool,
    pub form: RopeForm,
    /// The form of the other rope file.
    pub other_form: RopeForm,
    /// Whether words with wrong parity are read too (`--ignore-parity`).
    pub ignores_parity: bool,
}
