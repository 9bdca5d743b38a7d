//! Lines that stand for a text said many times.

use std::alloc::Global;
use std::io::{self, ErrorKind};
use std::str;

/// The sign that stands in a piece for the number of its turn, from 0.
const TURN: char = '#';

/// What stands before `n` for a line's end, and before `x` for a byte that no text has.
const ESCAPE: char = '\\';

/// Appends what stands for itself in no line, and gives the text after it.
fn push_escaped<'a>(bytes: &mut Vec<u8>, text: &'a str) -> io::Result<&'a str> {
    let (byte, rest) = if let Some(rest) = text.strip_prefix("n") {
        (b'\n', rest)
    } else {
        (0xff, text.strip_prefix("x").ok_or(ErrorKind::InvalidData)?)
    };
    bytes.push(byte)?;
    Ok(rest)
}

/// Appends a text in which no turn has its number.
fn push_text(bytes: &mut Vec<u8>, text: &str) -> io::Result<()> {
    for (number, part) in text.split(ESCAPE).enumerate() {
        let rest = if number > 0 {
            push_escaped(bytes, part)?
        } else {
            part
        };
        bytes.extend_from_slice(rest.as_bytes())?;
    }
    Ok(())
}

/// Appends a piece as it is in one turn.
fn push_turn(alloc: Global, bytes: &mut Vec<u8>, piece: &str, turn: usize) -> io::Result<()> {
    for (number, text) in piece.split(TURN).enumerate() {
        if number > 0 {
            bytes.extend_from_slice(format!(in alloc; "{turn}")?.as_bytes())?;
        }
        push_text(bytes, text)?;
    }
    Ok(())
}

/// Appends what `COUNT PIECE` stands for: the piece, so many times.
pub fn push_piece(alloc: Global, bytes: &mut Vec<u8>, line: &str) -> io::Result<()> {
    let (count, piece) = line.split_once(' ').ok_or(ErrorKind::InvalidData)?;
    let count: usize = count.parse().map_err(|_| ErrorKind::InvalidData)?;
    for turn in 0..count {
        push_turn(alloc, bytes, piece, turn)?;
    }
    Ok(())
}

/// Appends a text but for a change, `OLD => NEW` or `OLD =>`: in place of the old part, which is to stand in the text once, the new one or nothing.
pub fn push_changed(
    alloc: Global,
    bytes: &mut Vec<u8>,
    text: &[u8],
    change: &str,
) -> io::Result<()> {
    let text = str::from_utf8(text).map_err(|_| ErrorKind::InvalidData)?;
    let (old, new) = change.split_once(" =>").ok_or(ErrorKind::InvalidData)?;
    let mut old_bytes = Vec::new(alloc);
    push_text(&mut old_bytes, old)?;
    let old = str::from_utf8(old_bytes.as_slice()).map_err(|_| ErrorKind::InvalidData)?;
    let (before, after) = text.split_once(old).ok_or(ErrorKind::InvalidData)?;
    if after.contains(old) {
        return Err(ErrorKind::InvalidData.into());
    }
    bytes.extend_from_slice(before.as_bytes())?;
    push_text(bytes, new.strip_prefix(" ").unwrap_or(new))?;
    bytes.extend_from_slice(after.as_bytes())?;
    Ok(())
}
