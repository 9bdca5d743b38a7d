//! Heads of functions.

ghost use Rattle.std.specs.Prelude.{◌≡◌, map, OnOk, option_map};
ghost use Rattle.vlt_syntax.specs.Tree.{Entry as SeenEntry, Parameter as SeenParameter};
ghost use Rattle.vlt_syntax.specs.View.{entry_of, result_type_of, parameter_of, head_of};
ghost use Rattle.vlt_printer.specs.Layout.{entry_after, result_type_after, parameter_after, clause_after, head_after};

use crate::lists::{Part, write_listed, write_text};
use crate::types::{write_name, write_states, write_ty};
use vlt_base::{Items, Memory};
use vlt_syntax::{Entry, Head, Parameter, ResultType};

impl Part for Parameter {
    ghost Seen = { SeenParameter };

    ghost view = { parameter_of };

    ghost after = { parameter_after };

    fn write(&self, out: &mut Vec<u8>) -> Result<(), Memory> {
        write_ty(out, &self.ty)?;
        write_text(out, b" ")?;
        write_name(out, &self.name)
    }
}

impl Part for Entry {
    ghost Seen = { SeenEntry };

    ghost view = { entry_of };

    ghost after = { entry_after };

    fn write(&self, out: &mut Vec<u8>) -> Result<(), Memory> {
        match self {
            Entry::Held(held) => held.write(out),
            Entry::Changed { key, before, after } => {
                write_name(out, key)?;
                write_text(out, b"@")?;
                write_states(out, before)?;
                write_text(out, b"->")?;
                write_states(out, after)
            }
            Entry::Bound {
                key,
                variable,
                state,
            } => {
                write_name(out, key)?;
                write_text(out, b"@(")?;
                write_name(out, variable)?;
                write_text(out, b" <= ")?;
                write_name(out, state)?;
                write_text(out, b")")
            }
            Entry::Taken(held, _) => {
                write_text(out, b"-")?;
                held.write(out)
            }
            Entry::Given(held, _) => {
                write_text(out, b"+")?;
                held.write(out)
            }
            Entry::Fresh(held, _) => {
                write_text(out, b"new ")?;
                held.write(out)
            }
        }
    }
}

fn write_result_type(out: &mut Vec<u8>, result_type: &ResultType) -> Result<(), Memory>
    ensures { OnOk result (out.new.items ≡ result_type_after (result_type_of result_type.now)
        out.old.items) }
{
    match result_type {
        ResultType::Void(_) => write_text(out, b"void"),
        ResultType::Value(ty) => write_ty(out, ty),
    }
}

/// Writes the clause of a head, or nothing.
fn write_clause(out: &mut Vec<u8>, clause: &Option<Items<Entry>>) -> Result<(), Memory>
    ensures { OnOk result (out.new.items ≡ clause_after (option_map (map entry_of) clause.now)
        out.old.items) }
{
    match clause {
        Some(entries) => {
            write_text(out, b" [")?;
            write_listed(out, entries.as_slice())?;
            write_text(out, b"]")
        }
        None => Ok(()),
    }
}

pub fn write_head(out: &mut Vec<u8>, head: &Head) -> Result<(), Memory>
    ensures { OnOk result (out.new.items ≡ head_after (head_of head.now) out.old.items) }
{
    write_result_type(out, &head.result_type)?;
    write_text(out, b" ")?;
    write_name(out, &head.name)?;
    write_text(out, b"(")?;
    write_listed(out, head.parameters.as_slice())?;
    write_text(out, b")")?;
    write_clause(out, &head.clause)
}
