//! The values of all frames.

ghost use Rattle.std.specs.Prelude.{◌≡◌, ◌<◌, ◌≤◌, ◌+◌, ◌++◌, ◌∷◌, [], ◌^◌, ℕ, None, Some, IfSome, drop, slice_set, take, length, replicate, vec_capacity};
ghost use Rattle.c_syntax.specs.View.{func_of};
ghost use Rattle.c_values.specs.Shown.{value_view, names_in};
ghost use Rattle.c_values.specs.Places.{place_in};
ghost use Rattle.c_machine.specs.Machine.{with_slot};
ghost use Rattle.c_meaning.specs.Widths.{names_of};
ghost use Rattle.c_meaning.specs.World as model;

use c_syntax::{CFunc, CVar};
use c_values::{Value, Vars, find};
use vlt_steps::put;

/// The values of all frames, and of the running one where they begin, its function, whether this is glue, and how many
/// functions run that aren't glue.
#[derive(Drop)]
pub struct Frames<'a> {
    pub values: Vec<Option<Value>>,
    pub base: usize,
    pub func: &'a CFunc,
    pub is_glue: bool,
    pub depth: u32,
}

/// So many values more, unset.
pub fn fill(values: &mut Vec<Option<Value>>, count: usize)
    requires { length values.old.items + count ≤ vec_capacity values.old }
    ensures items { values.new.items ≡ values.old.items ++ replicate count None }
    ensures room { vec_capacity values.old ≤ vec_capacity values.new }
{
    for done in 0..count {
        let _ = done;
        put(values, None);
    }
}

/// The position of a name of a function.
fn place(func: &CFunc, v: CVar) -> Option<u128>
    ensures is { result ≡ place_in (names_of (func_of func.now)) v }
    ensures few { IfSome result (λ i. i < 2 ^ 66) }
{
    match find(func.params.as_slice(), v) {
        Some(i) => Some(i as u128),
        None => match find(func.vars.as_slice(), v) {
            Some(j) => Some(func.params.len() as u128 + j as u128),
            None => None,
        },
    }
}

/// Sets the value at a position, if there is one.
fn put_at(values: &mut Vec<Option<Value>>, at: u128, a: Value)
    ensures items { values.new.items ≡ slice_set values.old.items at (Some a) }
    ensures room { vec_capacity values.old ≤ vec_capacity values.new }
{
    if at < values.len() as u128 {
        values[at as usize] = Some(a);
    }
}

impl<'a> Frames<'a> {
    ghost use Rattle.c_interp.specs.Shown.{state_of, KeepsFrames};

    /// The variables of the running frame, the values of which end there.
    pub fn vars_to(&self, end: usize) -> Vars<'_>
        requires below { self.now.base ≤ end }
        requires within { end ≤ length self.now.values.items }
        ensures names { names_in result ≡ names_of (func_of self.now.func.now) }
        ensures values { result.values.now ≡ drop self.now.base (take end self.now.values.items) }
    {
        Vars {
            params: self.func.params.as_slice(),
            declared: self.func.vars.as_slice(),
            values: &self.values[self.base..end],
        }
    }

    /// The variables of the running frame.
    pub fn vars(&self) -> Vars<'_>
        requires { self.now.base ≤ length self.now.values.items }
        ensures names { names_in result ≡ names_of (func_of self.now.func.now) }
        ensures values { result.values.now ≡ drop self.now.base self.now.values.items }
    {
        Vars {
            params: self.func.params.as_slice(),
            declared: self.func.vars.as_slice(),
            values: &self.values[self.base..],
        }
    }

    /// Sets a variable of the running frame.
    pub fn set(&mut self, v: CVar, a: Value)
        ensures state { (w : model.World) → state_of self.new w
            ≡ with_slot v (value_view a) (state_of self.old w) }
        ensures kept { KeepsFrames (Some a) self.old self.new }
    {
        if let Some(i) = place(self.func, v) {
            put_at(&mut self.values, self.base as u128 + i, a);
        }
    }
}
