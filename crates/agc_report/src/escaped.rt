//! Puts text that comes from a file or a file name onto the page.
use std::alloc::AllocError;

/// Appends a text as text of the page: printable ASCII, with the characters that HTML uses as entities, and any other byte as
/// a backslash and three octal digits.
pub(crate) fn push_escaped(text: &mut String, raw: &str) -> Result<(), AllocError> {
    for byte in raw.as_bytes() {
        push_byte(text, *byte)?;
    }
    Ok(())
}

fn push_byte(text: &mut String, byte: u8) -> Result<(), AllocError> {
    match byte {
        b'&' => text.push_str("&amp;"),
        b'<' => text.push_str("&lt;"),
        b'>' => text.push_str("&gt;"),
        b'"' => text.push_str("&quot;"),
        b'\'' => text.push_str("&#39;"),
        b'\\' => text.push_str("\\134"),
        _ if 0x20 <= byte && byte < 0x7F => text.push(char::from(byte)),
        _ => write!(text, "\\{byte:03o}"),
    }
}
