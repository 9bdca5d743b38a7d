//! Sets of states.

ghost use Rattle.std.specs.Prelude.{◌≡◌, ◌↔◌, ℕ, ◌<◌, ◌≤◌, ◌^◌, ◌||◌, ◌==◌, nat_lt, IsTrue, IsNone, IfSome};

/// A set of numbers below 32 that has at least one.
#[derive(Clone, Copy, Debug, PartialEq, Eq)]
pub struct StateSet {
    mask: u32,
    ghost filled: { 0 < mask },
    ghost small: { mask < 2 ^ 32 },
}

impl StateSet {
    ghost use Rattle.vlt_base.specs.States.{has_state, is_bit, IsWithin};

    /// The set of the numbers of the bits that are 1.
    pub fn of(mask: u32) -> Option<StateSet>
        ensures none { IsNone result ↔ (mask ≡ 0) }
        ensures states { IfSome result (λ s. (i : ℕ) → has_state s i ≡ is_bit mask i) }
    {
        if mask == 0 {
            None
        } else {
            Some(StateSet { mask })
        }
    }

    /// The set of one number.
    #[tactic(auto, using(crate::proofs::Sets::shifted_bit))]
    pub fn only(s: u8) -> StateSet
        requires { s < 32 }
        ensures { (i : ℕ) → has_state result i ≡ (i == s) }
    {
        StateSet::of(1 << s).unwrap()
    }

    /// The set of the numbers below one from 1 to 32.
    pub fn first(n: u8) -> StateSet
        requires some { 1 ≤ n }
        requires within { n ≤ 32 }
        ensures { (i : ℕ) → has_state result i ≡ nat_lt i n }
    {
        StateSet {
            mask: ((1_u64 << n) - 1) as u32,
        }
    }

    /// The number whose bits are 1 at the numbers of the set.
    pub fn mask(self) -> u32
        ensures states { (i : ℕ) → is_bit result i ≡ has_state self i }
        ensures some_below { (i : ℕ) × (i < 32) × IsTrue (has_state self i) }
    {
        self.mask
    }

    /// The numbers of one set and of the other.
    pub fn join(self, o: StateSet) -> StateSet
        ensures { (i : ℕ) → has_state result i ≡ (has_state self i || has_state o i) }
    {
        StateSet {
            mask: self.mask | o.mask,
        }
    }

    /// Whether each number of this set is one of the other.
    pub fn within(self, o: StateSet) -> bool
        ensures { IsTrue result ↔ IsWithin self o }
    {
        self.mask | o.mask == o.mask
    }

    /// Whether the number is in the set.
    pub fn has(self, s: u8) -> bool
        ensures { result ≡ has_state self s }
    {
        s < 32 && self.mask >> s & 1 == 1
    }
}
