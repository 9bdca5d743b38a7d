//! Functions, and the whole program.

ghost use Rattle.std.specs.Prelude.{◌≡◌, map, OnOk};
ghost use Rattle.c_syntax.specs.View.{func_of, program_of};
ghost use Rattle.c_printer.specs.Layout.{bodies_laid, body_laid, declaration_laid, head_laid, heads_laid, more_params_laid, params_laid, program_laid, result_laid, type_laid, vars_laid};

use crate::stmts::write_stmts;
use crate::write::{write_byte, write_name, write_number, write_text, write_variable};
use c_syntax::{CFunc, CName, CProgram, CResult, CVar};
use vlt_base::Memory;

/// Writes a type.
fn write_type(out: &mut Vec<u8>, reference: bool) -> Result<(), Memory>
    ensures { OnOk result (out.new.items ≡ type_laid reference out.old.items) }
{
    if reference {
        write_text(out, b"vr_ref ")
    } else {
        write_text(out, b"long long ")
    }
}

/// Writes the type of a result.
fn write_result(out: &mut Vec<u8>, given: CResult) -> Result<(), Memory>
    ensures { OnOk result (out.new.items ≡ result_laid given out.old.items) }
{
    match given {
        CResult::Nothing => write_text(out, b"void "),
        CResult::Number => write_type(out, false),
        CResult::Reference => write_type(out, true),
    }
}

/// Writes a name with its type.
fn write_declaration(out: &mut Vec<u8>, variable: CVar) -> Result<(), Memory>
    ensures { OnOk result (out.new.items ≡ declaration_laid variable out.old.items) }
{
    write_type(out, variable.reference)?;
    write_variable(out, variable)?;
    write_byte(out, b' ')
}

/// Writes the parameters after the first, and the closing parenthesis.
fn write_more_params(out: &mut Vec<u8>, params: &[CVar]) -> Result<(), Memory>
    ensures { OnOk result (out.new.items ≡ more_params_laid params.now out.old.items) }
{
    for &param in params {
        write_text(out, b", ")?;
        write_declaration(out, param)?;
    }
    write_text(out, b") ")
}

/// Writes parameters, and the closing parenthesis.
fn write_params(out: &mut Vec<u8>, params: &[CVar]) -> Result<(), Memory>
    ensures { OnOk result (out.new.items ≡ params_laid params.now out.old.items) }
{
    match params.split_first() {
        Some((&first, rest)) => {
            write_declaration(out, first)?;
            write_more_params(out, rest)
        }
        None => write_text(out, b"void ) "),
    }
}

/// Writes the head of a function.
fn write_head(out: &mut Vec<u8>, glue: bool, func: &CFunc) -> Result<(), Memory>
    ensures { OnOk result (out.new.items ≡ head_laid glue (func_of func.now) out.old.items) }
{
    write_result(out, func.result)?;
    write_name(
        out,
        CName {
            glue,
            number: func.number,
        },
    )?;
    write_text(out, b" ( ")?;
    write_params(out, func.params.as_slice())
}

/// Writes the declarations of variables.
fn write_vars(out: &mut Vec<u8>, vars: &[CVar]) -> Result<(), Memory>
    ensures { OnOk result (out.new.items ≡ vars_laid vars.now out.old.items) }
{
    for &var in vars {
        write_declaration(out, var)?;
        write_text(out, b";\n")?;
    }
    Ok(())
}

/// Writes a function with its body.
fn write_body(out: &mut Vec<u8>, glue: bool, func: &CFunc) -> Result<(), Memory>
    ensures { OnOk result (out.new.items ≡ body_laid glue (func_of func.now) out.old.items) }
{
    write_head(out, glue, func)?;
    write_text(out, b"{\n")?;
    write_vars(out, func.vars.as_slice())?;
    write_stmts(out, func.body.as_slice())?;
    write_text(out, b"}\n")
}

/// Writes the heads of functions.
fn write_heads(out: &mut Vec<u8>, glue: bool, fns: &[CFunc]) -> Result<(), Memory>
    ensures { OnOk result (out.new.items ≡ heads_laid glue (map func_of fns.now) out.old.items) }
{
    for func in fns {
        write_head(out, glue, func)?;
        write_text(out, b";\n")?;
    }
    Ok(())
}

/// Writes functions with their bodies.
fn write_bodies(out: &mut Vec<u8>, glue: bool, fns: &[CFunc]) -> Result<(), Memory>
    ensures { OnOk result (out.new.items ≡ bodies_laid glue (map func_of fns.now) out.old.items) }
{
    for func in fns {
        write_body(out, glue, func)?;
    }
    Ok(())
}

/// Writes a whole program.
pub fn write_program(out: &mut Vec<u8>, program: &CProgram) -> Result<(), Memory>
    ensures { OnOk result (out.new.items ≡ program_laid (program_of program.now) out.old.items) }
{
    let main = match program.fns.get(program.main as usize) {
        Some(func) => func.number,
        None => 0,
    };
    write_text(out, b"#include \"vault_rt.h\"\n#define VR_MAIN f")?;
    write_number(out, main)?;
    write_byte(out, b'\n')?;
    write_heads(out, true, program.glue.as_slice())?;
    write_heads(out, false, program.fns.as_slice())?;
    write_bodies(out, true, program.glue.as_slice())?;
    write_bodies(out, false, program.fns.as_slice())
}
