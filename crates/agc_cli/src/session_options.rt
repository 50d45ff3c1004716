//! The options of an `agc` run, as data.

use agc_store::RopeForm;

/// The options of an `agc` run. Numbers and texts are unchecked: the run checks their ranges.
#[derive(Debug, Drop)]
pub struct Options {
    /// The path of the rope file.
    pub rope: String,
    /// The path of the script file.
    pub script: String,
    /// The cycle at which the run ends at the latest, in machine cycles of 11.7 microseconds.
    pub limit: u64,
    /// The slots of the ring between machine and display.
    pub slots: usize,
    /// The tables that the watcher prints, as the user wrote them.
    pub watch: Option<String>,
    /// Whether each channel write is printed.
    pub log: bool,
    /// How the rope file is laid out.
    pub form: RopeForm,
    /// The order before which the run stops, as the user wrote it.
    pub until: Option<String>,
    /// Whether keys are pressed while the machine runs.
    pub live: bool,
    /// The least number of machine cycles between two live keys.
    pub spacing: u64,
}
