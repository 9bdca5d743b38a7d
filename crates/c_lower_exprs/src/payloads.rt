//! Which slots of a variant the payloads of a case have.

ghost use Rattle.std.specs.Prelude.{◌≡◌, map, IfOk};
ghost use Rattle.vlt_core.specs.Lookups.{case_at};
ghost use Rattle.vlt_core.specs.View.{ty_of};
ghost use Rattle.c_lower.specs.Slots.{after_start, payload_positions, start_of, variant_starts};
ghost use Rattle.c_lower.specs.Statements.{case_positions, payload_in};
ghost use Rattle.c_lower_exprs.specs.Tables.{sort_of};
ghost use Rattle.c_lower_exprs.specs.Scopes.{IsScope, program_in, starts_of};

use crate::numbers::successor;
use crate::scope::Scope;
use crate::sorts::Sort;
use crate::variants::widths_of;
use std::alloc::Global;
use vlt_base::{Items, Memory, TypeId};
use vlt_core::Ty;

/// The positions in a variant's slots of the next payload of each sort. The slot of the case is at 0.
#[derive(Clone, Copy)]
pub struct Starts {
    pub number: u64,
    pub reference: u64,
    pub owner: u64,
}

impl Starts {
    /// The position of the next payload of the sort.
    fn of(self, sort: Sort) -> u64
        ensures { result ≡ start_of (sort_of sort) (starts_of self) }
    {
        match sort {
            Sort::Number => self.number,
            Sort::Reference => self.reference,
            Sort::Owner => self.owner,
        }
    }

    /// The starts after a payload of the sort.
    fn past(self, sort: Sort) -> Result<Starts, Memory>
        ensures { IfOk result (λ s. starts_of s ≡ after_start (sort_of sort) (starts_of self)) }
    {
        let next = successor(self.of(sort))?;
        Ok(match sort {
            Sort::Number => Starts {
                number: next,
                reference: self.reference,
                owner: self.owner,
            },
            Sort::Reference => Starts {
                number: self.number,
                reference: next,
                owner: self.owner,
            },
            Sort::Owner => Starts {
                number: self.number,
                reference: self.reference,
                owner: next,
            },
        })
    }
}

/// The positions of payloads.
fn payload_positions(alloc: Global, starts: Starts, payload: &[Ty]) -> Result<Items<u64>, Memory>
    ensures { IfOk result (λ ps.
        ps ≡ payload_positions (starts_of starts) (map ty_of payload.now)) }
{
    let mut made = Items::new(alloc);
    let mut next = starts;
    for ty in payload {
        let sort = Sort::of_payload(ty);
        made.push(next.of(sort))?;
        next = next.past(sort)?;
    }
    Ok(made)
}

impl Scope<'_> {
    /// The positions of the first payload of each sort.
    fn variant_starts(&self, t: TypeId) -> Result<Starts, Memory>
        requires { IsScope self.now }
        ensures { IfOk result (λ s. starts_of s ≡ variant_starts (program_in self.now) t.0) }
    {
        let widths = widths_of(self.program, &self.tables.variants, t);
        let reference = successor(widths.numbers)?;
        match reference.checked_add(widths.references) {
            Some(owner) => Ok(Starts {
                number: 1,
                reference,
                owner,
            }),
            None => Err(Memory),
        }
    }

    /// The payloads of a case, none of one that isn't there.
    fn payload(&self, t: TypeId, case: u8) -> &[Ty]
        ensures { map ty_of result.now ≡ payload_in (case_at (program_in self.now) t.0 case) }
    {
        match self.program.case_at(t, case) {
            Some(decl) => decl.payload.as_slice(),
            None => &[],
        }
    }

    /// The positions of a case's payloads.
    pub fn case_positions(&self, alloc: Global, t: TypeId, case: u8) -> Result<Items<u64>, Memory>
        requires { IsScope self.now }
        ensures { IfOk result (λ ps. ps ≡ case_positions (program_in self.now) t.0 case) }
    {
        let starts = self.variant_starts(t)?;
        payload_positions(alloc, starts, self.payload(t, case))
    }
}
