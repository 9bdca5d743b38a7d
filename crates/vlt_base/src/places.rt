//! Places in a text.

ghost use Rattle.std.specs.Prelude.{◌≡◌, ◌<◌, ◌≤◌, ◌^◌, ◌-◌, length};
ghost use Rattle.vlt_base.specs.Place.{line_of, column_of};

/// The bytes of a text from one position up to another, both counted from 0.
#[derive(Clone, Copy, Debug, PartialEq, Eq)]
pub struct Span {
    pub from: u32,
    pub to: u32,
}

/// One more than the line feeds before a position.
fn line(text: &[u8], at: u32) -> u32
    requires size { length text.now < 2 ^ 32 - 1 }
    requires within { at ≤ length text.now }
    ensures { result ≡ line_of text.now at }
{
    let mut line = 1;
    for &byte in &text[..at as usize] {
        if byte == b'\n' {
            line += 1;
        }
    }
    line
}

/// One more than the bytes after the last line feed before a position.
fn column(text: &[u8], at: u32) -> u32
    requires size { length text.now < 2 ^ 32 - 1 }
    requires within { at ≤ length text.now }
    ensures { result ≡ column_of text.now at }
{
    let mut start = at as usize;
    while start > 0 && text[start - 1] != b'\n' {
        start -= 1;
    }
    at - start as u32 + 1
}

/// The line and the column of a byte of the text or of its end, both from 1, the column in bytes.
pub fn place(text: &[u8], at: u32) -> (u32, u32)
    requires size { length text.now < 2 ^ 32 - 1 }
    requires within { at ≤ length text.now }
    ensures line { result.0 ≡ line_of text.now at }
    ensures column { result.1 ≡ column_of text.now at }
{
    (line(text, at), column(text, at))
}
