//! A walk over the tokens of a text.

ghost use Rattle.std.specs.Prelude.{◌≡◌, drop, map};
ghost use Rattle.c_syntax.specs.Kinds.{is_less, place, skip, unless, unless_here};
ghost use Rattle.c_kinds.specs.View.{refusal_of, walk_of};

use c_parser::Lexeme;

/// A broken rule, and the first byte of what it is told at.
#[derive(Clone, Copy, Debug, PartialEq, Eq)]
pub struct Refusal {
    pub at: u32,
    pub rule: u8,
}

/// The tokens to come, and the least refusal so far.
#[derive(Clone, Copy)]
pub struct Walk<'a> {
    pub rest: &'a [Lexeme<'a>],
    pub least: Option<Refusal>,
}

impl Refusal {
    /// Whether it comes before the other: the lesser place, and at one place the lesser number.
    fn is_less(self, other: Refusal) -> bool
        ensures { result ≡ is_less (refusal_of self) (refusal_of other) }
    {
        self.at < other.at || (self.at == other.at && self.rule < other.rule)
    }
}

/// The tokens after so many.
#[tactic(auto, using(crate::proofs::Places::slice_places, crate::proofs::Places::drop_short))]
fn past<'a>(lexemes: &'a [Lexeme<'a>], n: usize) -> &'a [Lexeme<'a>]
    ensures { map (λ l. l.at) result.now ≡ drop n (map (λ l. l.at) lexemes.now) }
{
    if n <= lexemes.len() {
        &lexemes[n..]
    } else {
        &[]
    }
}

impl Walk<'_> {
    /// Past so many tokens.
    pub fn skip(&mut self, n: usize)
        ensures { walk_of self.new ≡ skip n (walk_of self.old) }
    {
        self.rest = past(self.rest, n);
    }

    /// The first byte of the next token.
    pub fn place(&self) -> u32
        ensures { result ≡ place (walk_of self.now) }
    {
        match self.rest.first() {
            Some(lexeme) => lexeme.at,
            None => 0,
        }
    }

    /// Tells a rule at a place, unless it is kept.
    pub fn unless(&mut self, kept: bool, at: u32, rule: u8)
        ensures { walk_of self.new ≡ unless kept at rule (walk_of self.old) }
    {
        if kept {
            return;
        }
        let refusal = Refusal { at, rule };
        match self.least {
            None => self.least = Some(refusal),
            Some(found) => {
                if refusal.is_less(found) {
                    self.least = Some(refusal);
                }
            }
        }
    }

    /// Tells a rule at the next token, unless it is kept.
    pub fn unless_here(&mut self, kept: bool, rule: u8)
        ensures { walk_of self.new ≡ unless_here kept rule (walk_of self.old) }
    {
        let at = self.place();
        self.unless(kept, at, rule);
    }
}
