//! Bodies: the bytes behind a directive, line by line.
use crate::fault::Trouble;

/// Whether a line without its first blanks is one of a body.
pub fn is_body(line: &str) -> bool {
    matches!(line.as_bytes(), [b'|' | b'\\' | b'*' | b'!', ..])
}

fn digit(byte: u8) -> Option<u8> {
    match byte {
        b'0'..=b'9' => Some(byte - b'0'),
        b'A'..=b'F' => Some(byte - b'A' + 10),
        b'a'..=b'f' => Some(byte - b'a' + 10),
        _ => None,
    }
}

// The byte of two hexadecimal digits.
fn byte_of(high: u8, low: u8) -> Option<u8> {
    Some(digit(high)? << 4 | digit(low)?)
}

// What stands behind a `%`: two digits, and then bytes as they are.
fn push_behind(body: &mut Vec<u8>, piece: &[u8], line: u32) -> Result<(), Trouble> {
    let [high, low, rest @ ..] = piece else {
        return Err(Trouble::Bad(line));
    };
    let Some(byte) = byte_of(*high, *low) else {
        return Err(Trouble::Bad(line));
    };
    body.push(byte)?;
    body.extend_from_slice(rest)?;
    Ok(())
}

fn push_escaped(body: &mut Vec<u8>, text: &str, line: u32) -> Result<(), Trouble> {
    let mut pieces = text.split('%');
    if let Some(first) = pieces.next() {
        body.extend_from_slice(first.as_bytes())?;
    }
    for piece in pieces {
        push_behind(body, piece.as_bytes(), line)?;
    }
    Ok(())
}

// A count, a blank, and the text that stands so many times.
fn push_times(body: &mut Vec<u8>, text: &str, line: u32) -> Result<(), Trouble> {
    let Some((count, text)) = text.split_once(' ') else {
        return Err(Trouble::Bad(line));
    };
    let Ok(count) = count.parse::<u32>() else {
        return Err(Trouble::Bad(line));
    };
    for _ in 0..count {
        body.extend_from_slice(text.as_bytes())?;
    }
    Ok(())
}

/// A line of a body, without its first blanks, is added.
pub fn push_line(body: &mut Vec<u8>, text: &str, number: u32) -> Result<(), Trouble> {
    if let Some(text) = text.strip_prefix('*') {
        return push_times(body, text, number);
    }
    if let Some(text) = text.strip_prefix('\\') {
        body.extend_from_slice(text.as_bytes())?;
        return Ok(());
    }
    if let Some(text) = text.strip_prefix('!') {
        push_escaped(body, text, number)?;
    } else if let Some(text) = text.strip_prefix('|') {
        body.extend_from_slice(text.as_bytes())?;
    }
    body.push(b'\n')?;
    Ok(())
}
