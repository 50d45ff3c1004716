//! Parses the arguments of `downlink` and `uplink`.
use agc_cli::{ArgsFault, number_of, path_of, text_of};
use agc_study_args::{Args, DownlinkArgs, UplinkArgs};
use clap::ArgMatches;
use std::alloc::Global;

/// The log that is read if none is named.
const STANDARD_INPUT: &str = "/dev/stdin";

/// Cycles from key to key: a tenth of a second.
const KEY_CYCLES: u64 = 8533;

/// Cycles from bit to bit: 200 bits in a second.
const BIT_CYCLES: u64 = 427;

/// Parses the arguments of `downlink`.
pub(crate) fn downlink_args(alloc: Global, given: &ArgMatches<'_>) -> Result<Args, ArgsFault> {
    let log = match text_of(alloc, given, "log")? {
        Some(log) => log,
        None => String::from_str(alloc, STANDARD_INPUT)?,
    };
    Ok(Args::Downlink(DownlinkArgs {
        lists: path_of(alloc, given, "lists")?,
        log,
    }))
}

/// Parses the arguments of `uplink`.
pub(crate) fn uplink_args(alloc: Global, given: &ArgMatches<'_>) -> Result<Args, ArgsFault> {
    Ok(Args::Uplink(UplinkArgs {
        keys: path_of(alloc, given, "keys")?,
        from: number_of(given, "from", 0),
        every: number_of(given, "every", KEY_CYCLES),
        bits: number_of(given, "bits", BIT_CYCLES),
    }))
}
