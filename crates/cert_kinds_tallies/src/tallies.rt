//! Rows, one after another, and the first that is broken.

ghost use Rattle.std.specs.Prelude.{◌≡◌};
ghost use Rattle.std.specs.Option.{option_map};
ghost use Rattle.cert_kinds_types.specs.Least.{lesser};
ghost use Rattle.cert_kinds_tallies.specs.Tallies as z;

use cert_kinds_types::lesser;

/// A row, with the least rule that it breaks.
#[derive(Clone, Copy)]
pub struct Broken {
    pub row: u64,
    pub rule: u8,
}

/// The number of the next row, and the first row that is broken so far.
#[derive(Clone, Copy)]
pub struct Tally {
    pub next: u64,
    pub found: Option<Broken>,
}

/// The least rule of a statement's own row, as far as it is known, and the tally of the rows inside it.
#[derive(Clone, Copy)]
pub struct Walked {
    pub rule: Option<u8>,
    pub tally: Tally,
}

/// The number of the row after this one; the greatest number has itself.
#[tactic(auto, unfolding(crate::specs::Tallies::row_after))]
fn row_after(row: u64) -> u64
    ensures { result ≡ z.row_after row }
{
    if row < u64::MAX { row + 1 } else { row }
}

fn broken_at(row: u64, rule: Option<u8>) -> Option<Broken>
    ensures { option_map z.place_of result ≡ z.broken_at row rule }
{
    match rule {
        None => None,
        Some(rule) => Some(Broken { row, rule }),
    }
}

fn first_of(a: Option<Broken>, b: Option<Broken>) -> Option<Broken>
    ensures { option_map z.place_of result
        ≡ z.first_of (option_map z.place_of a) (option_map z.place_of b) }
{
    match a {
        None => b,
        Some(x) => Some(x),
    }
}

impl Tally {
    /// Nothing is broken before this row.
    pub fn clean(row: u64) -> Tally
        ensures { z.tally_of result ≡ z.clean row }
    {
        Tally {
            next: row,
            found: None,
        }
    }

    /// One more row, which breaks this rule, or none.
    pub fn with_row(self, rule: Option<u8>) -> Tally
        ensures { z.tally_of result ≡ z.with_row (z.tally_of self) rule }
    {
        Tally {
            next: row_after(self.next),
            found: first_of(self.found, broken_at(self.next, rule)),
        }
    }

    /// The rows inside the next one, by themselves.
    pub fn inside(self) -> Tally
        ensures { z.tally_of result ≡ z.clean (z.row_after self.next) }
    {
        Tally::clean(row_after(self.next))
    }

    /// One more statement: its own row, which breaks this rule or those that the walk found, and the rows inside it.
    pub fn with_stmt(self, rule: Option<u8>, walked: Walked) -> Tally
        ensures { z.tally_of result ≡ z.with_rest
            (z.with_row (z.tally_of self) (lesser rule walked.rule)) (z.tally_of walked.tally) }
    {
        self.with_row(lesser(rule, walked.rule))
            .with_rest(walked.tally)
    }

    /// And then the rows after these, which were tallied by themselves.
    pub fn with_rest(self, rest: Tally) -> Tally
        ensures { z.tally_of result ≡ z.with_rest (z.tally_of self) (z.tally_of rest) }
    {
        Tally {
            next: rest.next,
            found: first_of(self.found, rest.found),
        }
    }
}

impl Walked {
    /// And a rule of the own row that is told first.
    pub fn after_rule(self, rule: Option<u8>) -> Walked
        ensures { result ≡ record self { rule = lesser rule self.rule } }
    {
        Walked {
            rule: lesser(rule, self.rule),
            tally: self.tally,
        }
    }
}
