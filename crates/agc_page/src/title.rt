//! Formats the title of a run on the page: the names of its files, and its limit.
use agc_load::RunFiles;
use std::alloc::AllocError;

/// Adds the names of a run's files, and its limit.
pub(crate) fn push_title(
    text: &mut String,
    files: &RunFiles,
    limit: u64,
) -> Result<(), AllocError> {
    text.push_str("rope ")?;
    push_name(text, files.rope.as_bytes())?;
    text.push_str("\nscript ")?;
    push_name(text, files.script.as_bytes())?;
    writeln!(text, "\nlimit {limit}")
}

/// Adds lines that have names in them: line feeds as they are, any other byte as in a name.
pub(crate) fn push_lines_of_names(text: &mut String, bytes: &[u8]) -> Result<(), AllocError> {
    for byte in bytes {
        if *byte == b'\n' {
            text.push_str("\n")?;
        } else {
            push_byte(text, *byte)?;
        }
    }
    Ok(())
}

/// Adds the bytes of a name: printable ASCII except `<` and the backslash as it is, and any other byte as `\` and
/// three octal digits.
fn push_name(text: &mut String, bytes: &[u8]) -> Result<(), AllocError> {
    for byte in bytes {
        push_byte(text, *byte)?;
    }
    Ok(())
}

fn push_byte(text: &mut String, byte: u8) -> Result<(), AllocError> {
    if is_plain(byte) {
        text.push(char::from(byte))
    } else {
        write!(text, "\\{byte:03o}")
    }
}

/// Returns whether a byte of a name can be on the page as it is.
fn is_plain(byte: u8) -> bool {
    0x20 <= byte && byte < 0x7F && byte != b'<' && byte != b'\\'
}
