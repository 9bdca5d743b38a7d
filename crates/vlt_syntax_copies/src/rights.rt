//! Right sides.

ghost use Rattle.std.specs.Prelude.{◌≡◌, IfOk, map, option_map};
ghost use Rattle.vlt_syntax.specs.Tree as t;
ghost use Rattle.vlt_syntax.specs.View.{name_of, named_of, build_of, call_of, init_of, right_of, returned_of};
ghost use Rattle.vlt_syntax_copies.specs.Mapped as m;
ghost use Rattle.vlt_syntax_copies.specs.Shifted as s;

use crate::exprs::{shifted_expr, shifted_exprs};
use crate::names::{shifted_name, shifted_name_if, shifted_span};
use crate::types::shifted_named;
use std::alloc::{AllocError, Global};
use vlt_base::{Items, Span};
use vlt_syntax::{Build, Call, Init, Name, Named, Returned, Right};

fn shifted_build(alloc: Global, build: &Build, by: u32) -> Result<Build, AllocError>
    ensures { IfOk result (λ b. build_of b
        ≡ m.mapped_build (s.shifted_span by) (build_of build.now)) }
{
    Ok(Build {
        case: shifted_name(alloc, &build.case, by)?,
        payload: shifted_exprs(alloc, build.payload.as_slice(), by)?,
        at: shifted_span(build.at, by),
    })
}

pub fn shifted_call(alloc: Global, call: &Call, by: u32) -> Result<Call, AllocError>
    ensures { IfOk result (λ c. call_of c
        ≡ m.mapped_call (s.shifted_span by) (call_of call.now)) }
{
    Ok(Call {
        function: shifted_name(alloc, &call.function, by)?,
        arguments: shifted_exprs(alloc, call.arguments.as_slice(), by)?,
        at: shifted_span(call.at, by),
    })
}

fn shifted_init(alloc: Global, init: &Init, by: u32) -> Result<Init, AllocError>
    ensures { IfOk result (λ i. init_of i
        ≡ m.mapped_init (s.shifted_span by) (init_of init.now)) }
{
    Ok(Init {
        field: shifted_name(alloc, &init.field, by)?,
        value: shifted_expr(alloc, &init.value, by)?,
    })
}

fn shifted_inits(alloc: Global, inits: &[Init], by: u32) -> Result<Items<Init>, AllocError>
    ensures { IfOk result (λ is. map init_of is
        ≡ map (m.mapped_init (s.shifted_span by)) (map init_of inits.now)) }
{
    let mut made = Items::new(alloc);
    for init in inits {
        made.push(shifted_init(alloc, init, by)?)?;
    }
    Ok(made)
}

fn shifted_new(
    alloc: Global,
    owner: &Option<Name>,
    named: &Named,
    fields: &[Init],
    at: Span,
    by: u32,
) -> Result<Right, AllocError>
    ensures { IfOk result (λ v. right_of v ≡ m.mapped_right (s.shifted_span by)
        (t.make (option_map name_of owner.now) (named_of named.now) (map init_of fields.now) at)) }
{
    Ok(Right::New {
        owner: shifted_name_if(alloc, owner, by)?,
        named: shifted_named(alloc, named, by)?,
        fields: shifted_inits(alloc, fields, by)?,
        at: shifted_span(at, by),
    })
}

fn shifted_adopt(
    alloc: Global,
    variable: &Name,
    owner: &Name,
    at: Span,
    by: u32,
) -> Result<Right, AllocError>
    ensures { IfOk result (λ v. right_of v ≡ m.mapped_right (s.shifted_span by)
        (t.adopt (name_of variable.now) (name_of owner.now) at)) }
{
    Ok(Right::Adopt {
        variable: shifted_name(alloc, variable, by)?,
        owner: shifted_name(alloc, owner, by)?,
        at: shifted_span(at, by),
    })
}

pub fn shifted_right(alloc: Global, right: &Right, by: u32) -> Result<Right, AllocError>
    ensures { IfOk result (λ v. right_of v
        ≡ m.mapped_right (s.shifted_span by) (right_of right.now)) }
{
    match right {
        Right::Value(expr) => Ok(Right::Value(shifted_expr(alloc, expr, by)?)),
        Right::Build(build) => Ok(Right::Build(shifted_build(alloc, build, by)?)),
        Right::Call(call) => Ok(Right::Call(shifted_call(alloc, call, by)?)),
        Right::Input(at) => Ok(Right::Input(shifted_span(*at, by))),
        Right::More(at) => Ok(Right::More(shifted_span(*at, by))),
        Right::New {
            owner,
            named,
            fields,
            at,
        } => shifted_new(alloc, owner, named, fields.as_slice(), *at, by),
        Right::Adopt {
            variable,
            owner,
            at,
        } => shifted_adopt(alloc, variable, owner, *at, by),
    }
}

pub fn shifted_returned(alloc: Global, returned: &Returned, by: u32) -> Result<Returned, AllocError>
    ensures { IfOk result (λ v. returned_of v
        ≡ m.mapped_returned (s.shifted_span by) (returned_of returned.now)) }
{
    match returned {
        Returned::Nothing => Ok(Returned::Nothing),
        Returned::Value(expr) => Ok(Returned::Value(shifted_expr(alloc, expr, by)?)),
        Returned::Build(build) => Ok(Returned::Build(shifted_build(alloc, build, by)?)),
    }
}
