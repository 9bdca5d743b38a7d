//! One command over many texts that come of one, and its replies, of which those that follow each other and are the same are one line.

use std::alloc::Global;
use std::io;

/// Which texts a command is run over in place of its file's.
#[derive(Clone, Copy)]
pub enum Series {
    /// Its prefixes, the whole aside.
    Prefixes,
    /// For each of its digits the text with the next digit there, after 9 a 0.
    Digits,
}

/// The digit after this one.
fn next_digit(digit: u8) -> u8 {
    if digit < b'9' {
        digit.saturating_add(1)
    } else {
        b'0'
    }
}

impl Series {
    /// The text of this place, if there is one.
    pub fn text(self, alloc: Global, bytes: &[u8], place: usize) -> io::Result<Option<Vec<u8>>> {
        let (before, rest) = bytes.split_at(place.min(bytes.len()));
        let mut text = Vec::from_slice(alloc, before)?;
        match (self, rest.split_first()) {
            (Series::Prefixes, Some(_)) => Ok(Some(text)),
            (Series::Digits, Some((byte, after))) if byte.is_ascii_digit() => {
                text.push(next_digit(*byte))?;
                text.extend_from_slice(after)?;
                Ok(Some(text))
            }
            _ => Ok(None),
        }
    }
}

/// The replies so far, by the places of their texts.
#[derive(Drop)]
pub struct Replies {
    /// The lines before that of the last reply.
    lines: Vec<u8>,
    first: usize,
    last: usize,
    /// The reply from the place `first` to the place `last`; empty before the first one.
    reply: Vec<u8>,
    count: u32,
}

impl Replies {
    pub fn new(alloc: Global) -> Replies {
        Replies {
            lines: Vec::new(alloc),
            first: 0,
            last: 0,
            reply: Vec::new(alloc),
            count: 0,
        }
    }

    /// Takes the next reply.
    pub fn take(&mut self, alloc: Global, place: usize, reply: Vec<u8>) -> io::Result<()> {
        if reply.as_slice() != self.reply.as_slice() {
            self.end_line(alloc)?;
            self.first = place;
            self.reply = reply;
        }
        self.last = place;
        self.count = self.count.saturating_add(1);
        Ok(())
    }

    /// Writes the line of the last reply: its places, and each of its lines after a space.
    fn end_line(&mut self, alloc: Global) -> io::Result<()> {
        let Some(reply) = self.reply.strip_suffix(b"\n") else {
            return Ok(());
        };
        let places = format!(in alloc; "{}..{}:", self.first, self.last)?;
        self.lines.extend_from_slice(places.as_bytes())?;
        for line in reply.split(|byte| *byte == b'\n') {
            self.lines.push(b' ')?;
            self.lines.extend_from_slice(line)?;
        }
        self.lines.push(b'\n')?;
        Ok(())
    }

    /// The lines, and one with the number of replies.
    pub fn finish(mut self, alloc: Global) -> io::Result<Vec<u8>> {
        self.end_line(alloc)?;
        let end = format!(in alloc; "= {} texts\n", self.count)?;
        self.lines.extend_from_slice(end.as_bytes())?;
        Ok(self.lines)
    }
}
