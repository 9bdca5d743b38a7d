//! The refusal that is told.

ghost use Rattle.std.specs.Prelude.{◌≡◌};
ghost use Rattle.vlt_kinds_types.specs.Names.Refusals.{least_from, lesser, refusal, refuse_if};

/// A rule that refuses, and the place where it does, as a byte of the source counted from 0.
#[derive(Clone, Copy, Debug, PartialEq, Eq)]
pub struct Refusal {
    pub rule: u8,
    pub at: u32,
}

/// The least refusal so far: that of the least place, and there of the least rule.
#[derive(Clone, Copy)]
pub struct LeastRefusal {
    pub least: Option<Refusal>,
}

impl LeastRefusal {
    /// Notes that a rule refuses here.
    pub fn add(&mut self, rule: u8, at: u32)
        ensures { self.new.least ≡ lesser self.old.least (refusal rule at) }
    {
        let refusal = Refusal { rule, at };
        match self.least {
            Some(other) if !(at < other.at || at == other.at && rule < other.rule) => {}
            _ => self.least = Some(refusal),
        }
    }

    /// Notes that a rule refuses here, if it is broken.
    pub fn add_if(&mut self, broken: bool, rule: u8, at: u32)
        ensures { self.new.least ≡ least_from self.old.least (refuse_if broken rule at) }
    {
        if broken {
            self.add(rule, at);
        }
    }
}
