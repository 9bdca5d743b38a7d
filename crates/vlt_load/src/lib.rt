//! How many functions in, the text of the generated program out.
//! Read `specs/Generated.antt` first.
//! Used by: the command `load`.
#![tactic(auto)]

ghost use Rattle.std.specs.Prelude.{◌≡◌, ◌≤◌, ◌+◌, ◌++◌, length, IfOk, OnOk, string_bytes};
ghost use Rattle.vlt_base.specs.Limits.{limit_of};
ghost use Rattle.vlt_base.specs.declared.limits.TheConstants as limits;
ghost use Rattle.vlt_load.specs.Generated.{function_line, call_line, lines, generated_text};

use std::alloc::{AllocError, Global};
use std::fmt::Write;
use vlt_base::Memory;

/// Writes the function of a number.
fn write_function(text: &mut String, number: u32) -> Result<(), AllocError>
    ensures { OnOk result (string_bytes text.new
        ≡ string_bytes text.old ++ function_line number) }
{
    writeln!(
        text,
        "void f{number}(tracked(K) cell x, int n) [K@a] {{ int i = 0; while (i < n) {{ x.v = x.v + 1; i = i + 1; }} }}"
    )
}

/// Writes the call of a function.
fn write_call(text: &mut String, number: u32) -> Result<(), AllocError>
    ensures { OnOk result (string_bytes text.new
        ≡ string_bytes text.old ++ call_line number) }
{
    let turns = number % 10;
    writeln!(text, "f{number}(x, {turns});")
}

/// Writes the functions.
fn write_functions(text: &mut String, functions: u32) -> Result<(), AllocError>
    ensures { OnOk result (string_bytes text.new
        ≡ string_bytes text.old ++ lines function_line functions) }
{
    for before in 0..functions {
        write_function(text, before + 1)?;
    }
    Ok(())
}

/// Writes a call of each function.
fn write_calls(text: &mut String, functions: u32) -> Result<(), AllocError>
    ensures { OnOk result (string_bytes text.new
        ≡ string_bytes text.old ++ lines call_line functions) }
{
    for before in 0..functions {
        write_call(text, before + 1)?;
    }
    Ok(())
}

/// Writes the whole program.
fn write_program(text: &mut String, functions: u32) -> Result<(), AllocError>
    ensures { OnOk result (string_bytes text.new
        ≡ string_bytes text.old ++ generated_text functions) }
{
    text.push_str("stateset g { a, b }\nstruct cell @ g { int v; release a; }\n")?;
    write_functions(text, functions)?;
    text.push_str("void main() { tracked(K) cell x = new cell { v: 0 };\n")?;
    write_calls(text, functions)?;
    text.push_str("print(x.v); release x; }\n")
}

/// The text of the generated program with so many functions beside `main`. With up to 4,000 it is no longer than a file may be.
///
/// # Errors
///
/// `Memory` where there was none for the text.
#[tactic(auto, using(crate::proofs::Lengths::generated_is_short))]
pub fn make(alloc: Global, functions: u32) -> Result<Vec<u8>, Memory>
    ensures text { IfOk result (λ text. text.items ≡ generated_text functions) }
    ensures within_limit { functions ≤ 4000 →
        IfOk result (λ text. length text.items ≤ limit_of limits.SOURCE_BYTES) }
{
    let mut text = String::new(alloc);
    write_program(&mut text, functions)?;
    Ok(text.into_bytes())
}
