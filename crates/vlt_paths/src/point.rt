//! A path at a point of a body.

ghost use Rattle.std.specs.Prelude.{◌≡◌, ◌∷◌, ℕ, List, None, IfSome};
ghost use Rattle.vlt_core.specs.Witness as w;
ghost use Rattle.vlt_core.specs.Found.{One};
ghost use Rattle.vlt_core.specs.FaultView.{pick_of, choices_of};
ghost use Rattle.vlt_paths.specs.Comes.{Brings};
ghost use Rattle.vlt_paths.specs.Along.{state_of};
ghost use Rattle.vlt_paths.specs.Legs.{Led, Takes};

use crate::comes::{Comes, Wants};
use vlt_core::{Choice, Pick, Tok};

/// What a path is followed for, in the instance of this origin: a token, and a row that refuses it.
#[derive(Clone, Copy)]
pub struct Hunt {
    pub origin: Option<u8>,
    pub tok: Tok,
    pub row: Option<Sought>,
}

/// A row by its place and what it wants.
#[derive(Clone, Copy)]
pub struct Sought {
    pub at: u32,
    pub wants: Wants,
}

/// A path on its way.
#[derive(Clone, Copy)]
pub struct Point<'a> {
    /// What its token comes with.
    pub comes: Comes,
    /// The choices that are still to be made.
    pub rest: &'a [Choice],
    /// Whether the row was met after the last choice.
    pub met: bool,
}

/// A choice that was made, and the path after it.
#[derive(Clone, Copy)]
pub struct Chosen<'a> {
    pub pick: Pick,
    pub point: Point<'a>,
}

impl<'a> Point<'a> {
    /// The next choice, if it is one of the statement at this place.
    pub fn choose(self, at: u32) -> Option<Chosen<'a>>
        ensures comes { IfSome result (λ x. x.point.comes ≡ self.entry.comes) }
        ensures met { IfSome result (λ x. x.point.met ≡ self.entry.met) }
        ensures some { IfSome result (λ x. choices_of self.entry.rest.now
            ≡ w.choice at (pick_of x.pick) ∷ choices_of x.point.rest.now) }
        ensures none { result ≡ None → (x : w.Pick) (cs : List w.Choice) →
            choices_of self.entry.rest.now ≡ w.choice at x ∷ cs → ⊥ }
    {
        match self.rest.split_first() {
            None => None,
            Some((choice, rest)) => {
                if choice.at != at {
                    return None;
                }
                Some(Chosen {
                    pick: choice.pick,
                    point: Point {
                        comes: self.comes,
                        rest,
                        met: self.met,
                    },
                })
            }
        }
    }

    /// A path that doesn't come here.
    pub fn nowhere(self) -> Point<'a>
        ensures { (o : One) → Brings result.comes o → ⊥ }
    {
        Point {
            comes: Comes::Nothing,
            rest: &[],
            met: self.met,
        }
    }

    /// Following this choice, where it is the next one.
    pub fn take(self, at: u32, pick: Pick) -> Point<'a>
        ensures { Led (Takes (w.choice at (pick_of pick))) (state_of self.entry) (state_of result) }
    {
        match self.choose(at) {
            None => self.nowhere(),
            Some(chosen) => {
                if chosen.pick == pick {
                    chosen.point
                } else {
                    self.nowhere()
                }
            }
        }
    }

    /// The arm that comes next, where the next choice is one of the switch at this place.
    pub fn arm(self, at: u32) -> Option<u8>
        ensures some { IfSome result (λ i. (cs : List w.Choice) ×
            (choices_of self.entry.rest.now ≡ w.choice at (w.case_arm i) ∷ cs)) }
        ensures none { result ≡ None → (i : ℕ) (cs : List w.Choice) →
            choices_of self.entry.rest.now ≡ w.choice at (w.case_arm i) ∷ cs → ⊥ }
    {
        match self.choose(at) {
            None => None,
            Some(chosen) => match chosen.pick {
                Pick::Case(position) => Some(position),
                _ => None,
            },
        }
    }
}
