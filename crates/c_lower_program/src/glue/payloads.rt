//! What comes of a host's answer for one value: a number, a state, a new object.

ghost use Rattle.std.specs.Prelude.{◌≡◌, ◌++◌, [], ◌∷◌, map, if◌then◌else◌, OnOk};
ghost use Rattle.vlt_core.specs.View.{ty_of};
ghost use Rattle.c_syntax.specs.View.{stmt_of};
ghost use Rattle.c_lower.specs.Glue as g;
ghost use Rattle.c_lower_program.specs.Glue.Parts.{is_object, number_code, plain_code, payload_code};

use crate::glue::masks::{BOTH_BOOLS, push_pick};
use c_lower_calls::{value_none, value_one, value_two};
use c_lower_exprs::Atom;
use c_syntax::{CPrim, CStmt, CVar};
use std::alloc::Global;
use vlt_base::{Items, Memory};
use vlt_core::Ty;

/// A part of an external's code that is made of its result.
#[derive(Clone, Copy)]
pub enum Part {
    /// Numbers and states of the answer.
    Numbers,
    /// Objects of keys that come back.
    Backs,
    /// New objects.
    Objects,
}

/// A slot gets its number of the answer; of what owns an object the state is asked for.
fn push_number(alloc: Global, out: &mut Items<CStmt>, slot: CVar, ty: &Ty) -> Result<(), Memory>
    ensures { OnOk result (map stmt_of out.new
        ≡ map stmt_of out.old ++ number_code slot (ty_of ty.now)) }
{
    match ty {
        Ty::Int => value_none(alloc, out, slot, CPrim::Int),
        Ty::Bool => value_one(alloc, out, slot, CPrim::Pick, BOTH_BOOLS),
        Ty::Own(states, _, _) => push_pick(alloc, out, *states),
        _ => Ok(()),
    }
}

/// A slot gets a new object, where one is wanted.
fn push_object(
    alloc: Global,
    out: &mut Items<CStmt>,
    slot: CVar,
    wanted: bool,
) -> Result<(), Memory>
    ensures { OnOk result (map stmt_of out.new
        ≡ map stmt_of out.old ++ (if wanted then g.new_object slot else [])) }
{
    if wanted {
        value_two(
            alloc,
            out,
            slot,
            CPrim::New,
            Atom::Number(0),
            Atom::Number(0),
        )
    } else {
        Ok(())
    }
}

/// The part of a payload.
pub fn push_payload(
    alloc: Global,
    out: &mut Items<CStmt>,
    part: Part,
    slot: CVar,
    ty: &Ty,
) -> Result<(), Memory>
    ensures { OnOk result (map stmt_of out.new
        ≡ map stmt_of out.old ++ payload_code part slot (ty_of ty.now)) }
{
    match part {
        Part::Numbers => push_number(alloc, out, slot, ty),
        Part::Backs => Ok(()),
        Part::Objects => push_object(alloc, out, slot, ty.is_owning()),
    }
}

/// Whether a value of the type is one object.
fn is_object(ty: &Ty) -> bool
    ensures { result ≡ is_object (ty_of ty.now) }
{
    matches!(ty, Ty::Key(..) | Ty::Own(..))
}

/// The part of a result that is no variant.
pub fn push_plain(
    alloc: Global,
    out: &mut Items<CStmt>,
    part: Part,
    slot: CVar,
    ty: &Ty,
) -> Result<(), Memory>
    ensures { OnOk result (map stmt_of out.new
        ≡ map stmt_of out.old ++ plain_code part slot (ty_of ty.now)) }
{
    match part {
        Part::Numbers => push_number(alloc, out, slot, ty),
        Part::Backs => Ok(()),
        Part::Objects => push_object(alloc, out, slot, is_object(ty)),
    }
}
