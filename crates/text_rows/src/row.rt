//! Rows, and texts as rows have them.

use std::alloc::{AllocError, Global};

/// Lines that are empty or begin with `//` are no rows.
pub fn is_row(line: &str) -> bool {
    !line.is_empty() && !line.starts_with("//")
}

/// The first word of a row, and what is behind it.
pub fn cut(row: &str) -> (&str, &str) {
    row.split_once(' ').unwrap_or((row, ""))
}

/// The lines of a text, each with its line feed; none where nothing is written. ` / ` stands between two
/// lines, `(3: 1)` for three times what is behind the colon, and `\x09` for the byte 9.
pub fn text_of(alloc: Global, row: &str) -> Result<Vec<u8>, AllocError> {
    let mut text = Vec::new(alloc);
    if row.is_empty() {
        return Ok(text);
    }
    let lines = repeated(alloc, row)?;
    for line in lines.as_str().split(" / ") {
        push_line(&mut text, line)?;
        text.push(b'\n')?;
    }
    Ok(text)
}

// With what stands in brackets as often as is said there, the innermost first.
fn repeated(alloc: Global, row: &str) -> Result<String, AllocError> {
    let mut pieces = row.split(')');
    let mut done = String::from_str(alloc, pieces.next().unwrap_or(""))?;
    for piece in pieces {
        done = without_last_bracket(alloc, done.as_str())?;
        done.push_str(piece)?;
    }
    Ok(done)
}

fn without_last_bracket(alloc: Global, text: &str) -> Result<String, AllocError> {
    let (before, inside) = text.rsplit_once('(').unwrap_or((text, ""));
    let (times, piece) = inside.split_once(':').unwrap_or(("0", ""));
    let mut text = String::from_str(alloc, before)?;
    text.push_str(&piece.repeat(alloc, times.parse::<usize>().unwrap_or(0))?)?;
    Ok(text)
}

fn push_line(text: &mut Vec<u8>, line: &str) -> Result<(), AllocError> {
    for (index, part) in line.split("\\x").enumerate() {
        if index == 0 {
            text.extend_from_slice(part.as_bytes())?;
        } else {
            push_escaped(text, part)?;
        }
    }
    Ok(())
}

// What stands behind `\x`: two hexadecimal digits, and the rest.
fn push_escaped(text: &mut Vec<u8>, part: &str) -> Result<(), AllocError> {
    let (digits, rest) = part.split_at_checked(2).unwrap_or((part, ""));
    if let Ok(byte) = u8::from_str_radix(digits, 16) {
        text.push(byte)?;
    }
    text.extend_from_slice(rest.as_bytes())
}
