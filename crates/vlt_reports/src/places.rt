//! Places in a text, counted on from one to the next.

ghost use Rattle.std.specs.Prelude.{◌≡◌, ◌<◌, ◌≤◌, ◌^◌, ◌-◌, ℕ, List, length};
ghost use Rattle.vlt_base.specs.Place.{line_of, column_of};
ghost use Rattle.vlt_reports.specs.Placed.{IsPlace};

/// A byte of a text, counted from 0, or the text's end, with its line and its column. Both count from 1, the column in bytes.
#[derive(Clone, Copy, Debug)]
pub struct Place {
    pub at: u32,
    pub line: u32,
    pub column: u32,
}

/// Where each text begins.
pub fn text_start() -> Place
    ensures at { result.at ≡ 0 }
    ensures is { (text : List ℕ) → IsPlace text result }
{
    Place {
        at: 0,
        line: 1,
        column: 1,
    }
}

/// The place of a byte that doesn't stand before the given one.
fn count_on(text: &[u8], from: Place, at: u32) -> Place
    requires size { length text.now < 2 ^ 32 - 1 }
    requires from { IsPlace text.now from }
    requires order { from.at ≤ at }
    requires within { at ≤ length text.now }
    ensures is { IsPlace text.now result }
    ensures at { result.at ≡ at }
{
    let mut place = from;
    while place.at < at {
        if text[place.at as usize] == b'\n' {
            place.line += 1;
            place.column = 1;
        } else {
            place.column += 1;
        }
        place.at += 1;
    }
    place
}

/// The place of a byte, or of the text's end where the byte stands after it. It is counted on from the given place, and
/// from the text's start only if it stands before that.
pub fn place_from(text: &[u8], from: Place, at: u32) -> Place
    requires size { length text.now < 2 ^ 32 - 1 }
    requires from { IsPlace text.now from }
    ensures is { IsPlace text.now result }
    ensures line { result.line ≡ line_of text.now at }
    ensures column { result.column ≡ column_of text.now at }
{
    let at = at.min(text.len() as u32);
    if at < from.at {
        count_on(text, text_start(), at)
    } else {
        count_on(text, from, at)
    }
}
