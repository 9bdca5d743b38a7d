//! What a path's token comes with, and how a row changes it.

ghost use Rattle.std.specs.Prelude.{◌≡◌, ◌↔◌, true, false, IsTrue};
ghost use Rattle.vlt_core.specs.HeldView.{wanted_of, after_of};
ghost use Rattle.vlt_core.specs.Faults.{IsPresent};
ghost use Rattle.vlt_core.specs.Found.{One, one_absent, WantsOne, LeftBy};
ghost use Rattle.vlt_core.specs.Maps.{wants_in};
ghost use Rattle.vlt_paths.specs.Numbers.{holds};
ghost use Rattle.vlt_paths.specs.Comes.{Brings, wants_of, leaves_of};
ghost use Rattle.vlt_paths.specs.declared.numbers.Numbers.{Numbers};
ghost use Rattle.vlt_paths.specs.declared.comes.Wants.TheVariants.{In};

use crate::numbers::Numbers;
use vlt_core::{After, Wanted};
use vlt_rows::States;

/// One kind of status, with the states that its object may have.
#[derive(Clone, Copy)]
pub enum Comes {
    Nothing,
    Absent,
    Full,
    Held(Numbers),
    Lent(Numbers),
}

/// As `Wanted`, of whatever states.
#[derive(Clone, Copy)]
pub enum Wants {
    Absent,
    Any,
    In(Numbers),
    Lent,
    Full,
}

/// As `After`, with whatever states.
#[derive(Clone, Copy)]
pub enum Leaves {
    Absent,
    Set(Numbers),
    Same,
    Full,
    Lend,
    Unlend,
}

impl Wants {
    pub fn of(wanted: Wanted) -> Wants
        ensures { wants_of result ≡ wanted_of wanted }
    {
        match wanted {
            Wanted::Absent => Wants::Absent,
            Wanted::Any => Wants::Any,
            Wanted::In(set) => Wants::In(Numbers::of(States::Set(set))),
            Wanted::Lent => Wants::Lent,
            Wanted::Full => Wants::Full,
        }
    }

    pub fn is_same(self, o: Wants) -> bool
        ensures { IsTrue result ↔ (wants_of self ≡ wants_of o) }
    {
        match (self, o) {
            (Wants::Absent, Wants::Absent) => true,
            (Wants::Any, Wants::Any) => true,
            (Wants::In(a), Wants::In(b)) => a.is_same(b),
            (Wants::Lent, Wants::Lent) => true,
            (Wants::Full, Wants::Full) => true,
            _ => false,
        }
    }
}

impl Leaves {
    pub fn of(after: After) -> Leaves
        ensures { leaves_of result ≡ after_of after }
    {
        match after {
            After::Absent => Leaves::Absent,
            After::Set(set) => Leaves::Set(Numbers::of(States::Set(set))),
            After::Same => Leaves::Same,
            After::Full => Leaves::Full,
            After::Lend => Leaves::Lend,
            After::Unlend => Leaves::Unlend,
        }
    }
}

impl Comes {
    /// Whether something comes.
    fn is_some(self) -> bool
        ensures { IsTrue result ↔ ((o : One) × Brings self o) }
    {
        match self {
            Comes::Nothing => false,
            Comes::Absent => true,
            Comes::Full => true,
            Comes::Held(states) => states.is_filled(),
            Comes::Lent(states) => states.is_filled(),
        }
    }

    /// Whether a present status comes.
    pub fn is_present(self) -> bool
        ensures { IsTrue result ↔ ((o : One) × Brings self o × IsPresent o) }
    {
        match self {
            Comes::Nothing => false,
            Comes::Absent => false,
            Comes::Full => true,
            Comes::Held(states) => states.is_filled(),
            Comes::Lent(states) => states.is_filled(),
        }
    }

    pub fn is_absent(self) -> bool
        ensures { IsTrue result ↔ Brings self one_absent }
    {
        match self {
            Comes::Absent => true,
            _ => false,
        }
    }

    /// What is wanted of it.
    pub fn wanted_by(self, wants: Wants) -> Comes
        ensures { (o : One) → Brings result o ↔ (Brings self o × WantsOne (wants_of wants) o) }
    {
        match (self, wants) {
            (Comes::Absent, Wants::Absent) => self,
            (Comes::Held(_), Wants::Any) => self,
            (Comes::Held(states), Wants::In(wanted)) => Comes::Held(states.meet(wanted)),
            (Comes::Lent(_), Wants::Lent) => self,
            (Comes::Full, Wants::Full) => self,
            _ => Comes::Nothing,
        }
    }

    /// Whether something comes that isn't held in one of these states.
    fn is_outside(self, wanted: Numbers) -> bool
        ensures { IsTrue result
            ↔ ((o : One) × Brings self o × (WantsOne (wants_in (holds wanted)) o → ⊥)) }
    {
        match self {
            Comes::Nothing => false,
            Comes::Absent => true,
            Comes::Full => true,
            Comes::Held(states) => states.exceeds(wanted),
            Comes::Lent(states) => states.is_filled(),
        }
    }

    /// Whether what comes is of the kind that is wanted, in whatever state.
    fn fits(self, wants: Wants) -> bool
        ensures all { result ≡ true →
            (o : One) → Brings self o → WantsOne (wants_of wants) o }
        ensures none { result ≡ false → ((n : Numbers) → wants ≡ In n → ⊥) →
            (o : One) → Brings self o → WantsOne (wants_of wants) o → ⊥ }
    {
        match (self, wants) {
            (Comes::Absent, Wants::Absent) => true,
            (Comes::Held(_), Wants::Any) => true,
            (Comes::Lent(_), Wants::Lent) => true,
            (Comes::Full, Wants::Full) => true,
            _ => false,
        }
    }

    /// Whether something comes that isn't wanted.
    pub fn is_refused(self, wants: Wants) -> bool
        ensures { IsTrue result
            ↔ ((o : One) × Brings self o × (WantsOne (wants_of wants) o → ⊥)) }
    {
        match wants {
            Wants::In(wanted) => self.is_outside(wanted),
            _ => {
                if self.fits(wants) {
                    false
                } else {
                    self.is_some()
                }
            }
        }
    }

    /// What is left of it.
    pub fn left_as(self, leaves: Leaves) -> Comes
        ensures { (q : One) → Brings result q
            ↔ ((o : One) × Brings self o × LeftBy (leaves_of leaves) o q) }
    {
        if !self.is_some() {
            return Comes::Nothing;
        }
        match (self, leaves) {
            (_, Leaves::Absent) => Comes::Absent,
            (_, Leaves::Set(states)) => Comes::Held(states),
            (_, Leaves::Full) => Comes::Full,
            (Comes::Held(states), Leaves::Lend) => Comes::Lent(states),
            (Comes::Lent(states), Leaves::Unlend) => Comes::Held(states),
            _ => self,
        }
    }
}
