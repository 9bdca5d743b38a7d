ghost use Rattle.std.specs.Prelude.{IsTrue};
ghost use Rattle.std.specs.Option.{SomeIff};
ghost use Rattle.vlt_numbers.specs.Text.{is_number, value_of};

/// The number that a word spells, if it is one of 64 bits.
pub fn number(word: &[u8]) -> Option<i64>
    ensures { SomeIff result (IsTrue (is_number word.now)) (value_of word.now) }
{
    // `parse` would take a `+` too.
    if word.first() == Some(&b'+') {
        return None;
    }
    match str::from_utf8(word) {
        Ok(text) => text.parse().ok(),
        Err(_) => None,
    }
}
