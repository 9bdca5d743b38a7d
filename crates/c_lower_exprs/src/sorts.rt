//! What the slots of a value have.

ghost use Rattle.std.specs.Prelude.{◌≡◌, ◌++◌, [], ◌∷◌, map, replicate, IfOk, OnOk};
ghost use Rattle.vlt_core.specs.View.{program_of, ty_of};
ghost use Rattle.c_lower.specs.Slots.{is_owner_sort, slot_sorts, payload_sort};
ghost use Rattle.c_lower_exprs.specs.Tables.{sort_of, widths_view, sorts_in, AreWidths};

use crate::variants::{VariantWidths, widths_of};
use std::alloc::Global;
use vlt_base::{Items, Memory};
use vlt_core::{Program, Ty};

/// What a slot has.
#[derive(Clone, Copy)]
pub enum Sort {
    Number,
    /// A reference that owns nothing.
    Reference,
    /// A reference that owns its object.
    Owner,
}

impl Sort {
    pub fn is_owner(self) -> bool
        ensures { result ≡ is_owner_sort (sort_of self) }
    {
        matches!(self, Sort::Owner)
    }

    /// The sort of the slot that a payload takes.
    pub fn of_payload(ty: &Ty) -> Sort
        ensures { sort_of result ≡ payload_sort (ty_of ty.now) }
    {
        match ty {
            Ty::Int | Ty::Bool => Sort::Number,
            Ty::Guard(..) => Sort::Reference,
            _ => Sort::Owner,
        }
    }
}

/// Adds a sort so many times.
fn repeat(out: &mut Items<Sort>, sort: Sort, count: u64) -> Result<(), Memory>
    ensures { OnOk result (map sort_of out.new
        ≡ map sort_of out.old ++ replicate count (sort_of sort)) }
{
    for i in 0..count {
        out.push(sort)?;
    }
    Ok(())
}

/// A list of one sort.
fn single(alloc: Global, sort: Sort) -> Result<Items<Sort>, Memory>
    ensures { IfOk result (λ ss. map sort_of ss ≡ sort_of sort ∷ []) }
{
    let mut sorts = Items::new(alloc);
    sorts.push(sort)?;
    Ok(sorts)
}

/// The sorts of a variant's slots, in their order.
fn variant(alloc: Global, widths: VariantWidths) -> Result<Items<Sort>, Memory>
    ensures { IfOk result (λ ss. map sort_of ss ≡ sorts_in (widths_view widths)) }
{
    let mut sorts = single(alloc, Sort::Number)?;
    repeat(&mut sorts, Sort::Number, widths.numbers)?;
    repeat(&mut sorts, Sort::Reference, widths.references)?;
    repeat(&mut sorts, Sort::Owner, widths.owners)?;
    Ok(sorts)
}

/// The sorts of the slots of a value of the type.
pub fn sorts_of(
    alloc: Global,
    program: &Program,
    table: &Items<VariantWidths>,
    ty: &Ty,
) -> Result<Items<Sort>, Memory>
    requires { AreWidths (program_of program.now) table.now }
    ensures { IfOk result (λ ss. map sort_of ss
        ≡ slot_sorts (program_of program.now) (ty_of ty.now)) }
{
    match ty {
        Ty::Int | Ty::Bool => single(alloc, Sort::Number),
        Ty::Key(..) | Ty::Guard(..) => single(alloc, Sort::Reference),
        Ty::Own(..) => single(alloc, Sort::Owner),
        Ty::Var(t, _) => variant(alloc, widths_of(program, table, *t)),
        Ty::OwnVar(t, _) => variant(alloc, widths_of(program, table, *t)),
    }
}
