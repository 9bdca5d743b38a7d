//! Expressions.

ghost use Rattle.std.specs.Prelude.{◌≡◌, IfOk, Ok, Err, Some, None, slice_get, map};
ghost use Rattle.std.specs.Option.{option_map, option_copied};
ghost use Rattle.vlt_ops.specs.Operator.{bool_number};
ghost use Rattle.vlt_core.specs.View.{expr_of};
ghost use Rattle.vlt_meaning.specs.Found.{or_fault};
ghost use Rattle.vlt_meaning.specs.World.{missing};
ghost use Rattle.vlt_meaning.specs.Values.{object_of, touchable, value_of, number_of, number_in};
ghost use Rattle.vlt_trace_worlds.specs.View.{objects_view, value_view, named_view, found_of, frame_view, reason_view};
ghost use Rattle.vlt_trace_worlds.specs.Running.{program_in, func_in};
ghost use Rattle.vlt_trace_worlds.specs.Wanted.{wanted_states};
ghost use Rattle.vlt_trace_worlds.specs.Steps.{Finds};
ghost use Rattle.vlt_trace_worlds.specs.Operators.{IsUnaryValue, IsBinaryValue, AreSides};

use crate::objects::{guarded_object, in_states, tracked_object};
use crate::running::Running;
use crate::states::{Wanted, allows};
use crate::stops::{Halt, Reason, Stop};
use crate::worlds::{Frame, Named, Object, Part, Value};
use std::alloc::{AllocError, Global};
use vlt_base::{Items, VarId};
use vlt_core::Expr;
use vlt_ops::{Op, apply};

/// The object of a tracked variable, in one of the states that are wanted.
pub fn object_of<'a>(
    at: &Running<'_>,
    wanted: Wanted,
    x: VarId,
    frame: &Frame,
    objects: &'a [Object],
) -> Result<Named<'a>, Stop>
    ensures { found_of named_view result
        ≡ object_of (func_in at.now) (wanted_states (program_in at.now) wanted) x.0
        (frame_view frame.now) (objects_view objects.now) }
{
    match at.func.reference(x) {
        None => Err(Stop::Fault(Reason::Missing, None)),
        Some(r) => match tracked_object(r, x, frame, objects) {
            Err(stop) => Err(stop),
            Ok(m) => in_states(allows(at.program, wanted, r, m.object.state), m),
        },
    }
}

/// The object that a touch of a variable's field goes to.
pub fn touchable_object<'a>(
    at: &Running<'_>,
    x: VarId,
    i: u32,
    frame: &Frame,
    objects: &'a [Object],
) -> Result<Named<'a>, Stop>
    ensures { found_of named_view result
        ≡ touchable (program_in at.now) (func_in at.now) x.0 i
        (frame_view frame.now) (objects_view objects.now) }
{
    match at.func.reference(x) {
        Some(r) => match tracked_object(r, x, frame, objects) {
            Err(stop) => Err(stop),
            Ok(m) => in_states(allows(at.program, Wanted::Field(i), r, m.object.state), m),
        },
        None => match at.func.guarded(x) {
            None => Err(Stop::Fault(Reason::Missing, None)),
            Some(g) => match guarded_object(g, x, frame, objects) {
                Err(stop) => Err(stop),
                Ok(m) => in_states(allows(at.program, Wanted::Field(i), g, m.object.state), m),
            },
        },
    }
}

/// The number that a value is.
pub fn number_in(a: &Value) -> Result<i64, Stop>
    ensures { found_of (λ z. z) result ≡ number_in (value_view a.now) }
{
    match a {
        Value::One(part) => match part {
            Part::Number(z) => Ok(*z),
            Part::Reference(_) => Err(Stop::Fault(Reason::Missing, None)),
            Part::Owned(_) => Err(Stop::Fault(Reason::Missing, None)),
        },
        Value::OfCase { .. } => Err(Stop::Fault(Reason::Missing, None)),
    }
}

fn cell(cells: &[Value], i: u32) -> Option<&Value>
    ensures { option_map value_view (option_copied result) ≡
        slice_get (map value_view cells.now) i }
{
    cells.get(i as usize)
}

/// The number of a bool.
pub fn truth(b: bool) -> i64
    ensures { result ≡ bool_number b }
{
    i64::from(b)
}

/// Which sides of an operator say what it gives.
#[derive(Clone, Copy)]
pub enum Sides {
    Left,
    Right,
    Both,
}

/// `&&` gives its left side where that is 0, else its right one; `||` gives the left one where it isn't 0.
pub fn sides_of(op: Op, left: i64) -> Sides
    ensures { AreSides op left result }
{
    match op {
        Op::And => { if left == 0 { Sides::Left } else { Sides::Right } }
        Op::Or => { if left == 0 { Sides::Right } else { Sides::Left } }
        _ => Sides::Both,
    }
}

/// The number that an expression of type int or bool gives.
pub fn number(e: &Expr, at: &Running<'_>, frame: &Frame, objects: &[Object]) -> Result<i64, Stop>
    ensures { found_of (λ z. z) result
        ≡ number_of (program_in at.now) (func_in at.now) (expr_of e.now)
        (frame_view frame.now) (objects_view objects.now) }
{
    match e {
        Expr::Number(z) => Ok(*z),
        Expr::Bool(b) => Ok(truth(*b)),
        Expr::Var(v) => match frame.var(*v) {
            None => Err(Stop::Fault(Reason::NoValue, None)),
            Some(a) => number_in(a),
        },
        Expr::Field(x, i) => match touchable_object(at, *x, *i, frame, objects) {
            Err(stop) => Err(stop),
            Ok(m) => match cell(m.object.cells.as_slice(), *i) {
                None => Err(Stop::Fault(Reason::Missing, None)),
                Some(a) => number_in(a),
            },
        },
        Expr::Un(op, a) => match number(a.get(), at, frame, objects) {
            Err(stop) => Err(stop),
            Ok(z) => match apply(*op, z, 0) {
                Ok(z) => Ok(z),
                Err(t) => Err(Stop::Trap(t)),
            },
        },
        Expr::Bin(op, a, b) => match number(a.get(), at, frame, objects) {
            Err(stop) => Err(stop),
            Ok(z) => match sides_of(*op, z) {
                Sides::Left => Ok(z),
                Sides::Right => number(b.get(), at, frame, objects),
                Sides::Both => match number(b.get(), at, frame, objects) {
                    Err(stop) => Err(stop),
                    Ok(y) => match apply(*op, z, y) {
                        Ok(z) => Ok(z),
                        Err(t) => Err(Stop::Trap(t)),
                    },
                },
            },
        },
    }
}

/// A copy of a value.
pub fn copy_value(alloc: Global, a: &Value) -> Result<Value, AllocError>
    ensures { IfOk result (λ v. value_view v ≡ value_view a.now) }
{
    match a {
        Value::One(part) => Ok(Value::One(*part)),
        Value::OfCase { case, parts, keys } => {
            let parts = Items::from_slice(alloc, parts.as_slice())?;
            let keys = Items::from_slice(alloc, keys.as_slice())?;
            Ok(Value::OfCase {
                case: *case,
                parts,
                keys,
            })
        }
    }
}

/// A copy of a value that is there.
pub fn copy_of(alloc: Global, a: Option<&Value>, reason: Reason) -> Result<Value, Halt>
    ensures { Finds value_view result
        (or_fault (reason_view reason) (option_map value_view (option_copied a.entry))) }
{
    match a {
        None => Err(Halt::Ends(Stop::Fault(reason, None))),
        Some(a) => match copy_value(alloc, a) {
            Ok(v) => Ok(v),
            Err(_) => Err(Halt::Memory),
        },
    }
}

/// The value that an operator with one operand gives, whose number is found so.
fn unary_value(op: Op, y: Result<i64, Stop>) -> Result<Value, Halt>
    ensures { IsUnaryValue op y result }
{
    match y {
        Err(stop) => Err(Halt::Ends(stop)),
        Ok(z) => match apply(op, z, 0) {
            Ok(n) => Ok(Value::One(Part::Number(n))),
            Err(t) => Err(Halt::Ends(Stop::Trap(t))),
        },
    }
}

/// The value that an operator gives which asks for both sides.
fn binary_value(op: Op, z: i64, y: Result<i64, Stop>) -> Result<Value, Halt>
    ensures { IsBinaryValue op z y result }
{
    match y {
        Err(stop) => Err(Halt::Ends(stop)),
        Ok(y) => match apply(op, z, y) {
            Ok(n) => Ok(Value::One(Part::Number(n))),
            Err(t) => Err(Halt::Ends(Stop::Trap(t))),
        },
    }
}

/// The value of an expression.
pub fn value(
    alloc: Global,
    e: &Expr,
    at: &Running<'_>,
    frame: &Frame,
    objects: &[Object],
) -> Result<Value, Halt>
    ensures { Finds value_view result (value_of (program_in at.now) (func_in at.now) (expr_of e.now)
        (frame_view frame.now) (objects_view objects.now)) }
{
    match e {
        Expr::Var(v) => copy_of(alloc, frame.var(*v), Reason::NoValue),
        Expr::Field(x, i) => match touchable_object(at, *x, *i, frame, objects) {
            Err(stop) => Err(Halt::Ends(stop)),
            Ok(m) => copy_of(alloc, cell(m.object.cells.as_slice(), *i), Reason::Missing),
        },
        Expr::Number(z) => Ok(Value::One(Part::Number(*z))),
        Expr::Bool(b) => Ok(Value::One(Part::Number(truth(*b)))),
        Expr::Un(op, a) => unary_value(*op, number(a.get(), at, frame, objects)),
        Expr::Bin(op, a, b) => match number(a.get(), at, frame, objects) {
            Err(stop) => Err(Halt::Ends(stop)),
            Ok(z) => match sides_of(*op, z) {
                Sides::Left => Ok(Value::One(Part::Number(z))),
                Sides::Right => value(alloc, b.get(), at, frame, objects),
                Sides::Both => binary_value(*op, z, number(b.get(), at, frame, objects)),
            },
        },
    }
}
