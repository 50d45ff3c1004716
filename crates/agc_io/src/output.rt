//! Writes a text in full, or a beginning of it.
ghost use Rattle.std.specs.Prelude.{OnErr, OnOk};
ghost use Rattle.std.specs.Io.{WritesAtMost};
ghost use Rattle.std.specs.Io.KnownBytes.{Appends, WriteAppends};
ghost use Rattle.agc_io.specs.Output.{IsBegun};

use std::io::{self, ErrorKind, Write};

/// Writes all bytes. Unlike `Write::write_all`, it guarantees that after a failed write a beginning of the bytes was
/// written.
pub fn write_in_full<W: Write>(out: &mut W, bytes: &[u8]) -> io::Result<()>
    ensures written { OnOk result (Appends (W.contents out.old) (W.contents out.new) bytes.now) }
    ensures begun { OnErr result (IsBegun (W.contents out.old) (W.contents out.new) bytes.now) }
{
    let mut rest = bytes;
    for _turn in 0..u64::MAX {
        if rest.is_empty() {
            return Ok(());
        }
        let count = write_some(out, rest)?;
        rest = &rest[count..];
    }
    Err(io::Error::from(ErrorKind::Other))
}

/// Writes some of the bytes and returns their number: at least 1, or 0 if the write was interrupted.
fn write_some<W: Write>(out: &mut W, bytes: &[u8]) -> io::Result<usize>
    ensures bound { WritesAtMost result bytes.now }
    ensures bytes { WriteAppends (W.contents out.old) (W.contents out.new) result bytes.now }
{
    match out.write(bytes) {
        Ok(0) => Err(io::Error::from(ErrorKind::WriteZero)),
        Ok(count) => Ok(count),
        Err(error) => {
            if error.kind() == ErrorKind::Interrupted {
                Ok(0)
            } else {
                Err(error)
            }
        }
    }
}
