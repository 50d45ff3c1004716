//! The `clap` definition of the command line.
use crate::restore_commands::add_restore_commands;
use crate::rope_commands::add_rope_commands;
use crate::run_commands::add_run_commands;
use clap::Command;
use std::alloc::{AllocError, Global};

/// Returns the `clap` command of the program. A subcommand is required.
pub fn command<'a>(alloc: Global) -> Result<Command<'a>, AllocError> {
    let mut subcommands = Vec::new(alloc);
    add_rope_commands(alloc, &mut subcommands)?;
    add_run_commands(alloc, &mut subcommands)?;
    add_restore_commands(alloc, &mut subcommands)?;
    Command::new(alloc, "agc-study")
        .about("Inspects ropes and runs of the Apollo Guidance Computer, Block II.")
        .after_help("Example:\n  agc-study list examples/prog12/rope")
        .subcommand_required(true)
        .subcommands(subcommands)
}
