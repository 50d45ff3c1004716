//! Remarks on standard error, beside the result. A remark that cannot be written does not change the result.
use agc_machine::{Machine, Stop, Upcoming};
use std::io::Write;

/// Where and why a run has stopped.
#[derive(Clone, Copy, Debug, PartialEq, Eq)]
pub struct RunStop {
    pub cycle: u64,
    pub why: Stop,
}

/// Returns the stop of a machine's run, if the machine has stopped.
pub fn stop_of(machine: &Machine) -> Option<RunStop> {
    let cycle = machine.cycle();
    match machine.upcoming() {
        Upcoming::Stop(why) => Some(RunStop { cycle, why }),
        _ => None,
    }
}

/// Reports where and why a run has stopped, if that is before a cycle.
pub fn remark_on_start<N: Write>(stop: Option<RunStop>, from: u64, remarks: &mut N) {
    let Some(RunStop { cycle, why }) = stop else {
        return;
    };
    if cycle < from {
        let reason = why.name();
        let _written = writeln!(
            remarks,
            "agc-study: the run stopped at cycle {cycle}, before --from {from}: {reason}"
        );
    }
}
