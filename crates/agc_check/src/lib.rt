//! Checks a rope, a script or live keys, and reports what is wrong and what looks wrong.
#![tactic(auto)]

mod damage;
mod findings;
mod holdings;
mod key_report;
mod lines;
mod remarks;
mod reports;
mod rope_report;
mod scores;
mod sum_lines;
mod vectors;
mod walk;

pub use damage::{Damage, FileRepairs, MOST_REPAIRED, damage_of, file_repairs};
pub use findings::{mark_bad_words, push_findings, push_reading, push_stuck};
pub use holdings::{RopeHoldings, ScriptHoldings, Span, holdings_of_rope, holdings_of_script};
pub use key_report::check_keys;
pub use reports::{check, check_rope};
pub use scores::{Score, score_readings};
pub use sum_lines::push_sum_line;
pub use walk::{Reach, follow_orders, reached_places};
