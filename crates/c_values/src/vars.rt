//! The variables of a frame.

ghost use Rattle.std.specs.Prelude.{◌≡◌, ◌≤◌, Some, None, IfSome, option_map, length, drop, slice_get};
ghost use Rattle.vlt_rings.specs.Things.{Things};
ghost use Rattle.c_meaning.specs.Blocks.{option_join};
ghost use Rattle.c_syntax.specs.Kinds.{same_variable};
ghost use Rattle.c_values.specs.Places.{place_in};
ghost use Rattle.c_meaning.specs.World as model;
ghost use Rattle.c_values.specs.declared.value.Value.TheVariants.{Number};

use crate::value::Value;
use c_syntax::CVar;

/// The variables of the running frame: the names of its parameters, those that its body declares, and the values of both,
/// in this order.
#[derive(Clone, Copy)]
pub struct Vars<'a> {
    pub params: &'a [CVar],
    pub declared: &'a [CVar],
    pub values: &'a [Option<Value>],
}

/// Whether two variables are the same.
fn is_same(u: CVar, v: CVar) -> bool
    ensures { result ≡ same_variable u v }
{
    u.reference == v.reference && u.number == v.number
}

/// The position of a name.
pub fn find(names: &[CVar], v: CVar) -> Option<usize>
    ensures { result ≡ place_in names.now v }
{
    for i in 0..names.len() {
        if is_same(v, names[i]) {
            return Some(i);
        }
    }
    None
}

/// The value at a position, if there is one and it is set.
fn at(values: &[Option<Value>], i: usize) -> Option<Value>
    ensures { result ≡ option_join (slice_get values.now i) }
{
    match values.get(i) {
        Some(value) => *value,
        None => None,
    }
}

/// The number at a position, if there is one.
fn number_at(values: &[Option<Value>], i: usize) -> Option<i64>
    ensures { IfSome result (λ z. option_join (slice_get values.now i) ≡ Some (Number z)) }
{
    match values.get(i) {
        Some(Some(Value::Number(z))) => Some(*z),
        _ => None,
    }
}

/// The values from a position on.
fn following(values: &[Option<Value>], n: usize) -> &[Option<Value>]
    requires { n ≤ length values.now }
    ensures { result.now ≡ drop n values.now }
{
    &values[n..]
}

impl<'a> Vars<'a> {
    ghost use Rattle.c_values.specs.Shown.{shown_vars, value_view, AreMadeSlots, IsMadeValue};

    /// The value of a variable that is set.
    pub fn get(self, v: CVar) -> Option<Value>
        ensures shown { option_map value_view result ≡ shown_vars self.entry v }
        ensures made { IfSome result (λ a. (ts : Things) →
            AreMadeSlots ts self.entry.values.now → IsMadeValue ts a) }
    {
        match find(self.params, v) {
            Some(i) => at(self.values, i),
            None => match find(self.declared, v) {
                Some(j) => at(
                    following(self.values, self.params.len().min(self.values.len())),
                    j,
                ),
                None => None,
            },
        }
    }

    /// The number of a variable that is set to one.
    pub fn number(&self, v: CVar) -> Option<i64>
        ensures { IfSome result (λ z. shown_vars self.now v ≡ Some (model.number z)) }
    {
        match find(self.params, v) {
            Some(i) => number_at(self.values, i),
            None => match find(self.declared, v) {
                Some(j) => number_at(
                    following(self.values, self.params.len().min(self.values.len())),
                    j,
                ),
                None => None,
            },
        }
    }
}
