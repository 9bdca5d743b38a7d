//! Numbers of slots, and the variable or cell of each.

ghost use Rattle.std.specs.Prelude.{◌≡◌, suc, IfOk};
ghost use Rattle.c_lower.specs.Slots.{cell_at, past, var_at};
ghost use Rattle.c_lower.specs.Statements.{most_of_both};
ghost use Rattle.c_lower_exprs.specs.Tables.{numbers_of, sort_of, IsTempAt};

use crate::sorts::Sort;
use c_syntax::{CCell, CVar};
use vlt_base::Memory;

/// The next numbers of both kinds of variables or cells: `n` and `p` variables, number cells and reference cells.
#[derive(Clone, Copy)]
pub struct Numbers {
    pub n: u64,
    pub p: u64,
}

/// The number after this one. `Memory` after the last of 64 bits: so many slots or functions fit in no memory.
pub fn successor(number: u64) -> Result<u64, Memory>
    ensures { IfOk result (λ n. n ≡ suc number) }
{
    match number.checked_add(1) {
        Some(next) => Ok(next),
        None => Err(Memory),
    }
}

/// A variable that the lowering takes for itself, and the numbers after it.
#[derive(Clone, Copy)]
pub struct Temp {
    pub variable: CVar,
    pub next: Numbers,
}

impl Numbers {
    /// Where numbering begins.
    pub const FIRST: Numbers = Numbers { n: 0, p: 0 };

    /// The numbers after a slot.
    pub fn past(self, sort: Sort) -> Result<Numbers, Memory>
        ensures { IfOk result (λ t. numbers_of t ≡ past (numbers_of self) (sort_of sort)) }
    {
        match sort {
            Sort::Number => Ok(Numbers {
                n: successor(self.n)?,
                p: self.p,
            }),
            _ => Ok(Numbers {
                n: self.n,
                p: successor(self.p)?,
            }),
        }
    }

    /// The variable of a slot at these numbers.
    pub fn variable(self, sort: Sort) -> CVar
        ensures { result ≡ var_at (numbers_of self) (sort_of sort) }
    {
        match sort {
            Sort::Number => CVar {
                reference: false,
                number: self.n,
            },
            _ => CVar {
                reference: true,
                number: self.p,
            },
        }
    }

    /// A new temp of the sort.
    pub fn temp(self, sort: Sort) -> Result<Temp, Memory>
        ensures { IfOk result (IsTempAt (numbers_of self) (sort_of sort)) }
    {
        Ok(Temp {
            variable: self.variable(sort),
            next: self.past(sort)?,
        })
    }

    /// The cell of a slot at these numbers, in the block that the `p` variable of the number `base` refers to.
    pub fn cell(self, base: u64, sort: Sort) -> CCell
        ensures { result ≡ cell_at base (numbers_of self) (sort_of sort) }
    {
        match sort {
            Sort::Number => CCell::Number {
                base,
                index: self.n,
            },
            _ => CCell::Reference {
                base,
                index: self.p,
            },
        }
    }

    /// The greater number of each kind.
    pub fn most(self, other: Numbers) -> Numbers
        ensures { numbers_of result ≡ most_of_both (numbers_of self) (numbers_of other) }
    {
        Numbers {
            n: self.n.max(other.n),
            p: self.p.max(other.p),
        }
    }
}
