//! Declarations.

ghost use Rattle.std.specs.Prelude.{◌≡◌, map, OnOk, option_map};
ghost use Rattle.vlt_syntax.specs.Tree.{HeaderKey as SeenHeaderKey, Field as SeenField, Case as SeenCase};
ghost use Rattle.vlt_syntax.specs.View.{states_of, set_state_of, header_key_of, field_of, case_of, decl_of};
ghost use Rattle.vlt_printer.specs.Lists.{each_after};
ghost use Rattle.vlt_printer.specs.Layout.{state_separator, further_states_after, set_states_after, header_key_after, header_after, field_line_after, release_line_after, fields_after, case_after, cases_after, decl_after, decl_line_after};

use crate::heads::write_head;
use crate::lists::{Part, write_each, write_enclosed, write_separated, write_text};
use crate::stmts::write_block;
use crate::types::{write_at_name, write_at_states, write_name, write_states, write_ty};
use std::alloc::Global;
use vlt_base::Memory;
use vlt_syntax::{Case, Decl, Field, HeaderKey, SetState, States};

impl Part for HeaderKey {
    ghost Seen = { SeenHeaderKey };

    ghost view = { header_key_of };

    ghost after = { header_key_after };

    fn write(&self, out: &mut Vec<u8>) -> Result<(), Memory> {
        write_name(out, &self.key)?;
        match &self.key_type {
            Some(key_type) => {
                write_text(out, b": ")?;
                write_name(out, key_type)
            }
            None => Ok(()),
        }
    }
}

impl Part for Field {
    ghost Seen = { SeenField };

    ghost view = { field_of };

    ghost after = { field_line_after };

    fn write(&self, out: &mut Vec<u8>) -> Result<(), Memory> {
        write_text(out, b"    ")?;
        write_ty(out, &self.ty)?;
        write_text(out, b" ")?;
        write_name(out, &self.name)?;
        write_at_states(out, &self.states)?;
        write_text(out, b";")?;
        write_text(out, b"\n")
    }
}

impl Part for Case {
    ghost Seen = { SeenCase };

    ghost view = { case_of };

    ghost after = { case_after };

    fn write(&self, out: &mut Vec<u8>) -> Result<(), Memory> {
        write_name(out, &self.name)?;
        write_enclosed(out, b"(", b")", self.payload.as_slice())?;
        write_enclosed(out, b" { ", b" }", self.keys.as_slice())
    }
}

fn write_header(out: &mut Vec<u8>, params: &[HeaderKey]) -> Result<(), Memory>
    ensures { OnOk result (out.new.items ≡ header_after (map header_key_of params.now)
        out.old.items) }
{
    write_enclosed(out, b"<", b">", params)
}

/// Writes the line of the states in which an object is released, or nothing.
fn write_release_line(out: &mut Vec<u8>, release: &Option<States>) -> Result<(), Memory>
    ensures { OnOk result (out.new.items ≡ release_line_after (option_map states_of release.now)
        out.old.items) }
{
    match release {
        Some(states) => {
            write_text(out, b"    release ")?;
            write_states(out, states)?;
            write_text(out, b";\n")
        }
        None => Ok(()),
    }
}

/// Writes the body of a struct.
fn write_fields(out: &mut Vec<u8>, fields: &[Field], release: &Option<States>) -> Result<(), Memory>
    ensures { OnOk result (out.new.items ≡ fields_after (map field_of fields.now)
        (option_map states_of release.now) out.old.items) }
{
    if fields.is_empty() && release.is_none() {
        return write_text(out, b"{}");
    }
    write_text(out, b"{\n")?;
    write_each(out, fields)?;
    write_release_line(out, release)?;
    write_text(out, b"}")
}

/// Writes the body of a variant.
fn write_cases(out: &mut Vec<u8>, cases: &[Case]) -> Result<(), Memory>
    ensures { OnOk result (out.new.items ≡ cases_after (map case_of cases.now) out.old.items) }
{
    if cases.is_empty() {
        return write_text(out, b"{}");
    }
    write_text(out, b"{\n    ")?;
    write_separated(out, b",\n    ", cases)?;
    write_text(out, b"\n}")
}

/// Writes the sign between a state of a set and the one before it.
fn write_state_separator(out: &mut Vec<u8>, above: bool) -> Result<(), Memory>
    ensures { OnOk result (out.new.items ≡ state_separator above out.old.items) }
{
    if above {
        write_text(out, b" < ")
    } else {
        write_text(out, b", ")
    }
}

fn write_further_states(out: &mut Vec<u8>, states: &[SetState]) -> Result<(), Memory>
    ensures { OnOk result (out.new.items ≡ further_states_after (map set_state_of states.now)
        out.old.items) }
{
    for state in states {
        write_state_separator(out, state.above)?;
        write_name(out, &state.name)?;
    }
    Ok(())
}

/// Writes the states of a set between braces.
fn write_set_states(out: &mut Vec<u8>, states: &[SetState]) -> Result<(), Memory>
    ensures { OnOk result (out.new.items ≡ set_states_after (map set_state_of states.now)
        out.old.items) }
{
    let Some((first, further)) = states.split_first() else {
        return write_text(out, b"{}");
    };
    write_text(out, b"{ ")?;
    write_name(out, &first.name)?;
    write_further_states(out, further)?;
    write_text(out, b" }")
}

fn write_decl(alloc: Global, out: &mut Vec<u8>, decl: &Decl) -> Result<(), Memory>
    ensures { OnOk result (out.new.items ≡ decl_after (decl_of decl.now) out.old.items) }
{
    match decl {
        Decl::StateSet { name, states, .. } => {
            write_text(out, b"stateset ")?;
            write_name(out, name)?;
            write_text(out, b" ")?;
            write_set_states(out, states.as_slice())
        }
        Decl::Abstract { name, states, .. } => {
            write_text(out, b"abstract ")?;
            write_name(out, name)?;
            write_at_name(out, states)?;
            write_text(out, b";")
        }
        Decl::Struct {
            name,
            params,
            states,
            fields,
            release,
            ..
        } => {
            write_text(out, b"struct ")?;
            write_name(out, name)?;
            write_header(out, params.as_slice())?;
            write_at_name(out, states)?;
            write_text(out, b" ")?;
            write_fields(out, fields.as_slice(), release)
        }
        Decl::Variant {
            name,
            params,
            cases,
            ..
        } => {
            write_text(out, b"variant ")?;
            write_name(out, name)?;
            write_header(out, params.as_slice())?;
            write_text(out, b" ")?;
            write_cases(out, cases.as_slice())
        }
        Decl::Extern { head, .. } => {
            write_text(out, b"extern ")?;
            write_head(out, head)?;
            write_text(out, b";")
        }
        Decl::Function { head, body, .. } => {
            write_head(out, head)?;
            write_text(out, b" ")?;
            write_block(alloc, out, b"", body)
        }
    }
}

/// Writes each declaration, its last line ended.
pub fn write_decls(alloc: Global, out: &mut Vec<u8>, decls: &[Decl]) -> Result<(), Memory>
    ensures { OnOk result (out.new.items ≡ each_after decl_line_after (map decl_of decls.now)
        out.old.items) }
{
    for decl in decls {
        write_decl(alloc, out, decl)?;
        write_text(out, b"\n")?;
    }
    Ok(())
}
