//! States of an object, whatever their numbers are.

ghost use Rattle.std.specs.Prelude.{◌≡◌, ◌≤◌, ◌<◌, ◌^◌, ◌↔◌, ◌&&◌, ◌==◌, nat_lt, ℕ, IsTrue};
ghost use Rattle.vlt_base.specs.States.{is_bit};
ghost use Rattle.vlt_rows.specs.Wide.{states_named};

use vlt_base::StateSet;
use vlt_rows::States;

/// The numbers below 32 whose bits are 1, and those from one number to another, which are 32 or more.
#[derive(Clone, Copy)]
pub struct Numbers {
    mask: u32,
    from: usize,
    to: usize,
    ghost small: { mask < 2 ^ 32 },
    ghost above: { 32 ≤ from },
}

/// Those below n, of the numbers below 32.
fn low_mask(n: usize) -> u32
    ensures small { result < 2 ^ 32 }
    ensures low { (i : ℕ) → i < 32 → is_bit result i ≡ nat_lt i n }
{
    if n == 0 {
        0
    } else if n <= 32 {
        StateSet::first(n as u8).mask()
    } else {
        u32::MAX
    }
}

impl Numbers {
    ghost use Rattle.vlt_paths.specs.Numbers.{holds};

    fn low(mask: u32) -> Numbers
        ensures { holds result ≡ is_bit mask }
    {
        Numbers {
            mask,
            from: 32,
            to: 32,
        }
    }

    fn below(n: usize) -> Numbers
        ensures { holds result ≡ (λ i. nat_lt i n) }
    {
        Numbers {
            mask: low_mask(n),
            from: 32,
            to: n,
        }
    }

    /// One number from 32 on.
    fn high(s: u8) -> Numbers
        requires { 32 ≤ s }
        ensures { holds result ≡ (λ i. i == s) }
    {
        Numbers {
            mask: 0,
            from: s as usize,
            to: s as usize + 1,
        }
    }

    fn only(s: u8) -> Numbers
        ensures { holds result ≡ (λ i. i == s) }
    {
        if s < 32 {
            Numbers::low(StateSet::only(s).mask())
        } else {
            Numbers::high(s)
        }
    }

    pub fn of(states: States) -> Numbers
        ensures { holds result ≡ states_named states }
    {
        match states {
            States::Set(set) => Numbers::low(set.mask()),
            States::Below(n) => Numbers::below(n),
            States::Only(s) => Numbers::only(s),
            States::Nothing => Numbers::low(0),
        }
    }

    /// The numbers that are in both.
    pub fn meet(self, o: Numbers) -> Numbers
        ensures { (i : ℕ) → holds result i ≡ (holds self i && holds o i) }
    {
        Numbers {
            mask: self.mask & o.mask,
            from: self.from.max(o.from),
            to: self.to.min(o.to),
        }
    }

    /// Whether there is one.
    pub fn is_filled(self) -> bool
        ensures { IsTrue result ↔ ((i : ℕ) × IsTrue (holds self i)) }
    {
        if self.mask != 0 {
            return true;
        }
        self.from < self.to
    }

    /// Whether some number isn't in the other.
    pub fn exceeds(self, o: Numbers) -> bool
        ensures { IsTrue result
            ↔ ((i : ℕ) × IsTrue (holds self i) × (IsTrue (holds o i) → ⊥)) }
    {
        if self.mask & !o.mask != 0 {
            return true;
        }
        if self.to <= self.from {
            return false;
        }
        self.from < o.from || o.to < self.to
    }

    pub fn is_same(self, o: Numbers) -> bool
        ensures { IsTrue result ↔ (holds self ≡ holds o) }
    {
        if self.exceeds(o) {
            false
        } else {
            !o.exceeds(self)
        }
    }
}
