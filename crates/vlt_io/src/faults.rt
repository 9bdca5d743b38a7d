//! A count of failures.

ghost use Rattle.std.specs.Prelude.{◌≡◌, ◌≤◌};
ghost use Rattle.vlt_io.specs.Outside.{Rose};

/// How often something failed, up to 18446744073709551615.
#[derive(Drop)]
pub struct Faults {
    count: u64,
}

impl Faults {
    ghost use Rattle.vlt_io.specs.Faults.{count_of, one_more};

    pub fn new() -> Faults
        ensures { count_of result ≡ 0 }
    {
        Faults { count: 0 }
    }

    /// Counts a failure.
    pub fn add(&mut self)
        ensures count { count_of self.new ≡ one_more (count_of self.old) }
        ensures rose { Rose (count_of self.old) (count_of self.new) }
        ensures counted { count_of self.old ≤ count_of self.new }
    {
        self.count = self.count.saturating_add(1);
    }
}
