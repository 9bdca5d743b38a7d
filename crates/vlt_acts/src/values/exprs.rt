//! The numbers that expressions give.

ghost use Rattle.std.specs.Prelude.{◌≡◌, ◌≤◌, ℤ, Ok, IfSome};
ghost use Rattle.vlt_ops.specs.Operator.{bool_number};
ghost use Rattle.vlt_core.specs.View.{expr_of};
ghost use Rattle.vlt_core.specs.Core.{field as a_field};
ghost use Rattle.vlt_heap.specs.Shown.{IsSound};
ghost use Rattle.vlt_meaning.specs.Values.{value_of, number_of};
ghost use Rattle.vlt_acts.specs.Values.Shown.{Seen, IsTable, IsFront, IsNumber};
ghost use Rattle.vlt_acts.specs.Values.Asked.{IsAsked};

use crate::values::values::Values;
use vlt_base::VarId;
use vlt_core::Expr;
use vlt_heap::{Heap, Slot};
use vlt_ops::{Op, TrapKind, apply};

/// The number that a slot has, 0 for an object.
fn number_in(a: Slot) -> i64
    ensures { (z : ℤ) → a ≡ Slot.Number z → result ≡ z }
{
    match a {
        Slot::Number(z) => z,
        Slot::Object(..) => 0,
        Slot::Owned(..) => 0,
    }
}

/// The first slot of a field of a variable's object.
pub fn front_of_field(x: VarId, i: u32, values: &Values, heap: &Heap) -> Slot
    requires sound { IsSound heap.now }
    requires table { IsTable values.now }
    ensures { (c : Seen heap.now values.now) →
        IsFront c.items result (value_of c.program c.func (a_field x.0 i) c.frame c.objects) }
{
    match values.front(x) {
        Slot::Object(object, number) => match heap.find(object, number, values.cell(i)) {
            Some(a) => a,
            None => Slot::Number(0),
        },
        Slot::Number(_) => Slot::Number(0),
        Slot::Owned(..) => Slot::Number(0),
    }
}

/// The number of a bool.
pub fn truth(b: bool) -> i64
    ensures { result ≡ bool_number b }
{
    i64::from(b)
}

/// Which sides of an operator say what it gives.
#[derive(Clone, Copy)]
pub enum Sides {
    Left,
    Right,
    Both,
}

/// `&&` gives its left side where that is 0, else its right one; `||` gives the left one where it isn't 0.
pub fn asked(op: Op, left: i64) -> Sides
    ensures { IsAsked op left result }
{
    match op {
        Op::And => { if left == 0 { Sides::Left } else { Sides::Right } }
        Op::Or => { if left == 0 { Sides::Right } else { Sides::Left } }
        _ => Sides::Both,
    }
}

/// The number that an expression of type int or bool gives, or the first trap.
pub fn number(e: &Expr, values: &Values, heap: &Heap) -> Result<i64, TrapKind>
    requires sound { IsSound heap.now }
    requires table { IsTable values.now }
    ensures { (c : Seen heap.now values.now) →
        IsNumber result (number_of c.program c.func (expr_of e.now) c.frame c.objects) }
{
    // Few expressions trap, and a number without a trap takes fewer instructions to return.
    match trapless_number(e, values, heap) {
        Some(z) => Ok(z),
        None => number_or_trap(e, values, heap),
    }
}

/// The number that an operand gives if no operator traps. Most operands are numbers and variables: these need no call.
#[inline(always)]
#[cycle(trapless)]
fn operand(e: &Expr, values: &Values, heap: &Heap) -> Option<i64>
    requires sound { IsSound heap.now }
    requires table { IsTable values.now }
    ensures { (c : Seen heap.now values.now) → IfSome result (λ z.
        IsNumber (Ok z) (number_of c.program c.func (expr_of e.now) c.frame c.objects)) }
{
    match e {
        Expr::Number(z) => Some(*z),
        Expr::Var(v) => Some(values.number(*v)),
        _ => trapless_number(e, values, heap),
    }
}

/// The number that an expression gives if no operator traps.
#[cycle(trapless)]
fn trapless_number(e: &Expr, values: &Values, heap: &Heap) -> Option<i64>
    requires sound { IsSound heap.now }
    requires table { IsTable values.now }
    ensures { (c : Seen heap.now values.now) → IfSome result (λ z.
        IsNumber (Ok z) (number_of c.program c.func (expr_of e.now) c.frame c.objects)) }
{
    match e {
        Expr::Number(z) => Some(*z),
        Expr::Bool(b) => Some(truth(*b)),
        Expr::Var(v) => Some(values.number(*v)),
        Expr::Field(x, i) => Some(number_in(front_of_field(*x, *i, values, heap))),
        Expr::Un(op, a) => {
            let z = operand(a.get(), values, heap)?;
            apply(*op, z, 0).ok()
        }
        Expr::Bin(op, a, b) => {
            let z = operand(a.get(), values, heap)?;
            match asked(*op, z) {
                Sides::Left => Some(z),
                Sides::Right => operand(b.get(), values, heap),
                Sides::Both => {
                    let y = operand(b.get(), values, heap)?;
                    apply(*op, z, y).ok()
                }
            }
        }
    }
}

/// The number that an expression gives, or the first trap, at each operator.
fn number_or_trap(e: &Expr, values: &Values, heap: &Heap) -> Result<i64, TrapKind>
    requires sound { IsSound heap.now }
    requires table { IsTable values.now }
    ensures { (c : Seen heap.now values.now) →
        IsNumber result (number_of c.program c.func (expr_of e.now) c.frame c.objects) }
{
    match e {
        Expr::Number(z) => Ok(*z),
        Expr::Bool(b) => Ok(truth(*b)),
        Expr::Var(v) => Ok(number_in(values.front(*v))),
        Expr::Field(x, i) => Ok(number_in(front_of_field(*x, *i, values, heap))),
        Expr::Un(op, a) => match number_or_trap(a.get(), values, heap) {
            Ok(z) => apply(*op, z, 0),
            Err(t) => Err(t),
        },
        Expr::Bin(op, a, b) => match number_or_trap(a.get(), values, heap) {
            Ok(z) => match asked(*op, z) {
                Sides::Left => Ok(z),
                Sides::Right => number_or_trap(b.get(), values, heap),
                Sides::Both => match number_or_trap(b.get(), values, heap) {
                    Ok(y) => apply(*op, z, y),
                    Err(t) => Err(t),
                },
            },
            Err(t) => Err(t),
        },
    }
}
