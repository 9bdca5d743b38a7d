//! The arguments of primitives.

ghost use Rattle.std.specs.Prelude.{◌≡◌, map, option_map};
ghost use Rattle.vlt_rings.specs.Things.{Things};
ghost use Rattle.c_syntax.specs.View.{arg_of};
ghost use Rattle.c_meaning.specs.Primitives.{number_of, reference_of, asked_cells, name_told};
ghost use Rattle.c_values.specs.Shown.{shown_vars, AreMadeSlots, IsReference};
ghost use Rattle.c_primitives.specs.Args as wanted;
ghost use Rattle.c_primitives.specs.Args.{AreReferences, AreNumberAndReference};

use c_memory::Ref;
use c_syntax::CArg;
use c_syntax::rules::{MISUSED, UNSET};
use c_values::{Value, Vars, arg};

/// An argument that is a number.
fn number(x: &CArg, vars: Vars) -> Result<i64, u8>
    ensures { (ts : Things) → AreMadeSlots ts vars.entry.values.now →
        result ≡ number_of (arg_of x.now) (shown_vars vars.entry) }
{
    match arg(x, vars) {
        Ok(Value::Number(z)) => Ok(z),
        Ok(Value::Reference(_)) => Err(UNSET),
        Err(rule) => Err(rule),
    }
}

/// An argument that is a reference.
fn reference(x: &CArg, vars: Vars) -> Result<Option<Ref>, u8>
    ensures { (ts : Things) → AreMadeSlots ts vars.entry.values.now →
        IsReference ts result (reference_of (arg_of x.now) (shown_vars vars.entry)) }
{
    match arg(x, vars) {
        Ok(Value::Reference(p)) => Ok(p),
        Ok(Value::Number(_)) => Err(UNSET),
        Err(rule) => Err(rule),
    }
}

/// The one argument, a number.
pub fn one_number(args: &[CArg], vars: Vars) -> Result<i64, u8>
    ensures { (ts : Things) → AreMadeSlots ts vars.entry.values.now →
        result ≡ wanted.one_number (map arg_of args.now) (shown_vars vars.entry) }
{
    match args {
        [x] => number(x, vars),
        _ => Err(MISUSED),
    }
}

/// The one argument, a reference.
pub fn one_reference(args: &[CArg], vars: Vars) -> Result<Option<Ref>, u8>
    ensures { (ts : Things) → AreMadeSlots ts vars.entry.values.now →
        IsReference ts result (wanted.one_reference (map arg_of args.now)
        (shown_vars vars.entry)) }
{
    match args {
        [x] => reference(x, vars),
        _ => Err(MISUSED),
    }
}

/// Two arguments that are numbers.
fn number_pair(x: &CArg, y: &CArg, vars: Vars) -> Result<(i64, i64), u8>
    ensures { (ts : Things) → AreMadeSlots ts vars.entry.values.now →
        result ≡ wanted.number_pair (arg_of x.now) (arg_of y.now) (shown_vars vars.entry) }
{
    match number(x, vars) {
        Ok(a) => match number(y, vars) {
            Ok(b) => Ok((a, b)),
            Err(rule) => Err(rule),
        },
        Err(rule) => Err(rule),
    }
}

/// The two arguments, numbers.
pub fn two_numbers(args: &[CArg], vars: Vars) -> Result<(i64, i64), u8>
    ensures { (ts : Things) → AreMadeSlots ts vars.entry.values.now →
        result ≡ wanted.two_numbers (map arg_of args.now) (shown_vars vars.entry) }
{
    match args {
        [x, y] => number_pair(x, y, vars),
        _ => Err(MISUSED),
    }
}

/// The two arguments, a number and a reference.
pub fn number_and_reference(args: &[CArg], vars: Vars) -> Result<(i64, Option<Ref>), u8>
    ensures { (ts : Things) → AreMadeSlots ts vars.entry.values.now →
        AreNumberAndReference ts result (wanted.number_and_reference (map arg_of args.now)
        (shown_vars vars.entry)) }
{
    match args {
        [x, y] => match number(x, vars) {
            Ok(a) => match reference(y, vars) {
                Ok(b) => Ok((a, b)),
                Err(rule) => Err(rule),
            },
            Err(rule) => Err(rule),
        },
        _ => Err(MISUSED),
    }
}

/// The two arguments, references.
pub fn two_references(args: &[CArg], vars: Vars) -> Result<(Option<Ref>, Option<Ref>), u8>
    ensures { (ts : Things) → AreMadeSlots ts vars.entry.values.now →
        AreReferences ts result (wanted.two_references (map arg_of args.now)
        (shown_vars vars.entry)) }
{
    match args {
        [x, y] => match reference(x, vars) {
            Ok(a) => match reference(y, vars) {
                Ok(b) => Ok((a, b)),
                Err(rule) => Err(rule),
            },
            Err(rule) => Err(rule),
        },
        _ => Err(MISUSED),
    }
}

/// How many cells of each sort a block is asked to have.
pub fn asked(args: &[CArg]) -> Option<(u64, u64)>
    ensures { result ≡ asked_cells (map arg_of args.now) }
{
    match args {
        [CArg::Number(a), CArg::Number(b)] => {
            if *a >= 0 && *b >= 0 {
                Some((*a as u64, *b as u64))
            } else {
                None
            }
        }
        _ => None,
    }
}

/// The one argument, a text.
pub fn one_text(args: &[CArg]) -> Option<&[u8]>
    ensures { option_map (λ text. text.now) result ≡ name_told (map arg_of args.now) }
{
    match args {
        [CArg::Text(text)] => Some(text.as_slice()),
        _ => None,
    }
}

/// Whether there are no arguments.
pub fn is_none(args: &[CArg]) -> bool
    ensures { result ≡ wanted.is_none (map arg_of args.now) }
{
    match args {
        [] => true,
        _ => false,
    }
}
