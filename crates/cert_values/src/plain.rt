//! Rows of statements without blocks.

ghost use Rattle.std.specs.Prelude.{◌≡◌, ◌∷◌, [], map, option_map, OnOk, IfSome, is_some};
ghost use Rattle.vlt_core.specs.Core as core;
ghost use Rattle.vlt_core.specs.View.{expr_of, operand_of, keys_of, vars_of, form_of};
ghost use Rattle.cert_rows.specs.Parts.{nat};
ghost use Rattle.cert_rows.specs.Values.{tagged_list};
ghost use Rattle.cert_rows.specs.Rows as row;
ghost use Rattle.cert_values.specs.Heads.{plain_row, plain_data};
ghost use Rattle.cert_values.specs.Laid.{laid};

use crate::exprs::{put_expr, put_numbered, put_numbered_two, put_operand, put_operands};
use crate::parts::{put_flag, put_ids, put_number_or_minus, put_vars};
use crate::text::CertText;
use std::alloc::AllocError;
use vlt_base::{FnId, KeyId, VarId};
use vlt_core::{Expr, Form, Operand};

fn put_set(out: &mut CertText, v: VarId, e: &Expr) -> Result<(), AllocError>
    ensures { OnOk result (out.new ≡ laid (plain_data (row.simple (core.set v.0
        (expr_of e.now)))) out.old) }
{
    out.tag("set")?;
    out.number(v.0 as u64)?;
    put_expr(out, e)?;
    out.end()
}

fn put_input(out: &mut CertText, v: VarId, more: bool) -> Result<(), AllocError>
    ensures { OnOk result (out.new
        ≡ laid (plain_data (row.simple (core.input v.0 more))) out.old) }
{
    out.tag("input")?;
    out.number(v.0 as u64)?;
    put_flag(out, more)?;
    out.end()
}

fn put_print(out: &mut CertText, e: &Expr) -> Result<(), AllocError>
    ensures { OnOk result (out.new
        ≡ laid (plain_data (row.simple (core.print (expr_of e.now)))) out.old) }
{
    out.tag("print")?;
    put_expr(out, e)?;
    out.end()
}

fn put_put(out: &mut CertText, x: VarId, field: u32, e: &Expr) -> Result<(), AllocError>
    ensures { OnOk result (out.new ≡ laid (plain_data (row.simple (core.put x.0 field
        (expr_of e.now)))) out.old) }
{
    out.tag("put")?;
    out.number(x.0 as u64)?;
    out.number(field as u64)?;
    put_expr(out, e)?;
    out.end()
}

fn put_new(out: &mut CertText, x: VarId, args: &[Operand]) -> Result<(), AllocError>
    ensures { OnOk result (out.new ≡ laid (plain_data (row.simple (core.make x.0
        (map operand_of args.now)))) out.old) }
{
    out.tag("new")?;
    out.number(x.0 as u64)?;
    put_operands(out, args)?;
    out.end()
}

fn put_own(out: &mut CertText, v: VarId, value: &Operand) -> Result<(), AllocError>
    ensures { OnOk result (out.new ≡ laid (plain_data (row.simple (core.own v.0
        (operand_of value.now)))) out.old) }
{
    out.tag("own")?;
    out.number(v.0 as u64)?;
    put_operand(out, value)?;
    out.end()
}

fn put_build(out: &mut CertText, v: VarId, case: u8, args: &[Operand]) -> Result<(), AllocError>
    ensures { OnOk result (out.new ≡ laid (plain_data (row.simple (core.build v.0 case
        (map operand_of args.now)))) out.old) }
{
    out.tag("build")?;
    out.number(v.0 as u64)?;
    out.number(case as u64)?;
    put_operands(out, args)?;
    out.end()
}

fn var_number(v: Option<VarId>) -> Option<u32>
    ensures { result ≡ option_map (λ v. v.0) v }
{
    Some(v?.0)
}

fn put_call(
    out: &mut CertText,
    f: FnId,
    target: Option<VarId>,
    keys: &[KeyId],
    args: &[Operand],
) -> Result<(), AllocError>
    ensures { OnOk result (out.new ≡ laid (plain_data (row.call f.0
        (option_map (λ v. v.0) target) (keys_of keys.now) (map operand_of args.now))) out.old) }
{
    out.tag("call")?;
    out.number(f.0 as u64)?;
    put_number_or_minus(out, var_number(target))?;
    put_ids(out, keys)?;
    put_operands(out, args)?;
    out.end()
}

fn put_three(
    out: &mut CertText,
    tag: &str,
    first: u32,
    second: u32,
    third: u32,
) -> Result<(), AllocError>
    ensures { OnOk result (out.new
        ≡ laid (tagged_list tag.now (nat first ∷ nat second ∷ nat third ∷ [])) out.old) }
{
    out.tag(tag)?;
    out.number(first as u64)?;
    out.number(second as u64)?;
    out.number(third as u64)?;
    out.end()
}

fn put_open(out: &mut CertText, x: VarId, into: &[VarId]) -> Result<(), AllocError>
    ensures { OnOk result (out.new ≡ laid (plain_data (row.simple (core.open_into x.0
        (vars_of into.now)))) out.old) }
{
    out.tag("open")?;
    out.number(x.0 as u64)?;
    put_vars(out, into)?;
    out.end()
}

fn put_return(out: &mut CertText, value: &Option<Operand>) -> Result<(), AllocError>
    ensures { OnOk result (out.new ≡ laid (plain_data (row.return
        (option_map operand_of value.now))) out.old) }
{
    match value {
        None => put_numbered(out, "return", 0),
        Some(operand) => {
            out.tag("return")?;
            put_operand(out, operand)?;
            out.end()
        }
    }
}

fn put_jump(out: &mut CertText, continues: bool) -> Result<(), AllocError>
    ensures { OnOk result (out.new ≡ laid (plain_data (row.jump continues)) out.old) }
{
    out.tag("jump")?;
    put_flag(out, continues)?;
    out.end()
}

/// Whether the statement has no block.
pub fn is_plain(form: &Form) -> bool
    ensures { result ≡ is_some (plain_row (form_of form.now)) }
{
    match form {
        Form::If { .. } => false,
        Form::While { .. } => false,
        Form::Switch { .. } => false,
        Form::Focus { .. } => false,
        Form::Scope { .. } => false,
        _ => true,
    }
}

/// Writes the row of a statement without blocks; of another one nothing is said.
pub fn put_plain(out: &mut CertText, form: &Form) -> Result<(), AllocError>
    ensures { OnOk result (IfSome (plain_row (form_of form.now)) (λ r. out.new
        ≡ laid (plain_data r) out.old)) }
{
    match form {
        Form::Set { v, e } => put_set(out, *v, e),
        Form::Input { v, more } => put_input(out, *v, *more),
        Form::Print { e } => put_print(out, e),
        Form::Put { x, field, e } => put_put(out, *x, *field, e),
        Form::New { x, args } => put_new(out, *x, args.as_slice()),
        Form::Become { x, state } => { put_numbered_two(out, "become", x.0 as u64, *state as u64) }
        Form::Release { x } => put_numbered(out, "release", x.0 as u64),
        Form::Drop { v } => put_numbered(out, "drop", v.0 as u64),
        Form::Own { v, value } => put_own(out, *v, value),
        Form::Unpack { x, v } => put_numbered_two(out, "unpack", x.0 as u64, v.0 as u64),
        Form::Build { v, case, args } => put_build(out, *v, *case, args.as_slice()),
        Form::Call {
            f,
            target,
            keys,
            args,
        } => put_call(out, *f, *target, keys.as_slice(), args.as_slice()),
        Form::Swap { x, field, v } => put_three(out, "swap", x.0, *field, v.0),
        Form::Open { x, into } => put_open(out, *x, into.as_slice()),
        Form::Adopt { y, x, r } => put_three(out, "adopt", y.0, x.0, r.0),
        Form::Return { value } => put_return(out, value),
        Form::Jump { continues } => put_jump(out, *continues),
        _ => Ok(()),
    }
}
