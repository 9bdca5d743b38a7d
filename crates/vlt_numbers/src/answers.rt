ghost use Rattle.std.specs.Prelude.{◌≡◌, ◌^◌, ◌<◌, ◌∷◌, length, slice_get, slice_index, IsTrue};
ghost use Rattle.std.specs.Option.{option_map};
ghost use Rattle.vlt_numbers.specs.Ends.{are_ends};

/// The answers of a host, each a list of numbers.
#[derive(Debug, Drop)]
pub struct Answers {
    /// The numbers of all answers, one after the other.
    pub numbers: Vec<i64>,
    /// For each answer the position after its last number.
    pub ends: Vec<u32>,
    pub ghost ordered: { IsTrue (are_ends 0 ends.items (length numbers.items)) },
    pub ghost few: { length ends.items < 2 ^ 32 },
}

impl Answers {
    ghost use Rattle.vlt_numbers.specs.HostAnswers.{lists_of};

    /// The numbers of the answer at an index, if there are so many.
    pub fn get(&self, index: usize) -> Option<&[i64]>
        ensures { option_map (λ numbers. numbers.now) result
            ≡ slice_get (lists_of self.now) index }
    {
        let end = *self.ends.get(index)?;
        Some(&self.numbers[self.start(index) as usize..end as usize])
    }

    /// The position of the answer's first number.
    fn start(&self, index: usize) -> u32
        requires { index < length self.now.ends.items }
        ensures { result ≡ slice_index (0 ∷ self.now.ends.items) index }
    {
        if index == 0 { 0 } else { self.ends[index - 1] }
    }
}
