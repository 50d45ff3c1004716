//! The exit statuses of the programs.
ghost use Rattle.std.specs.Prelude.{◌≡◌, if◌then◌else◌, is_ok};

use std::io;

/// The run came to a stop, for any reason.
pub const OK: u8 = 0;

/// The run was refused.
pub const REFUSED: u8 = 1;

/// The command line has a mistake.
pub const USAGE: u8 = 2;

/// A write failed.
pub const WRITE_FAILED: u8 = 3;

/// Returns the status after a program's only write: this one, or `WRITE_FAILED` if the write failed.
pub fn status_of(status: u8, written: io::Result<()>) -> u8
    ensures { result ≡ (if is_ok written then status else WRITE_FAILED) }
{
    match written {
        Ok(()) => status,
        Err(_) => WRITE_FAILED,
    }
}
