//! Right sides.

ghost use Rattle.std.specs.Prelude.{◌≡◌, OnOk, option_map};
ghost use Rattle.vlt_syntax.specs.Tree.{Init as SeenInit};
ghost use Rattle.vlt_syntax.specs.View.{name_of, build_of, call_of, init_of, right_of, returned_of};
ghost use Rattle.vlt_printer.specs.Layout.{build_after, call_after, init_after, owner_after, right_after, returned_after};

use crate::exprs::write_expr;
use crate::lists::{Part, write_braced, write_enclosed, write_listed, write_text};
use crate::types::{write_name, write_named};
use vlt_base::Memory;
use vlt_syntax::{Build, Call, Init, Name, Returned, Right};

impl Part for Init {
    ghost Seen = { SeenInit };

    ghost view = { init_of };

    ghost after = { init_after };

    fn write(&self, out: &mut Vec<u8>) -> Result<(), Memory> {
        write_name(out, &self.field)?;
        write_text(out, b": ")?;
        write_expr(out, &self.value)
    }
}

pub fn write_build(out: &mut Vec<u8>, build: &Build) -> Result<(), Memory>
    ensures { OnOk result (out.new.items ≡ build_after (build_of build.now) out.old.items) }
{
    write_name(out, &build.case)?;
    write_enclosed(out, b"(", b")", build.payload.as_slice())
}

pub fn write_call(out: &mut Vec<u8>, call: &Call) -> Result<(), Memory>
    ensures { OnOk result (out.new.items ≡ call_after (call_of call.now) out.old.items) }
{
    write_name(out, &call.function)?;
    write_text(out, b"(")?;
    write_listed(out, call.arguments.as_slice())?;
    write_text(out, b")")
}

/// Writes the variable of an object that adopts, or nothing.
fn write_owner(out: &mut Vec<u8>, owner: &Option<Name>) -> Result<(), Memory>
    ensures { OnOk result (out.new.items ≡ owner_after (option_map name_of owner.now)
        out.old.items) }
{
    match owner {
        Some(owner) => {
            write_text(out, b"(")?;
            write_name(out, owner)?;
            write_text(out, b")")
        }
        None => Ok(()),
    }
}

pub fn write_right(out: &mut Vec<u8>, right: &Right) -> Result<(), Memory>
    ensures { OnOk result (out.new.items ≡ right_after (right_of right.now) out.old.items) }
{
    match right {
        Right::Value(value) => write_expr(out, value),
        Right::Build(build) => write_build(out, build),
        Right::Call(call) => write_call(out, call),
        Right::Input(_) => write_text(out, b"input()"),
        Right::More(_) => write_text(out, b"more()"),
        Right::New {
            owner,
            named,
            fields,
            ..
        } => {
            write_text(out, b"new")?;
            write_owner(out, owner)?;
            write_text(out, b" ")?;
            write_named(out, named)?;
            write_text(out, b" ")?;
            write_braced(out, fields.as_slice())
        }
        Right::Adopt {
            variable,
            owner,
            ..
        } => {
            write_text(out, b"adopt ")?;
            write_name(out, variable)?;
            write_text(out, b" into ")?;
            write_name(out, owner)
        }
    }
}

/// Writes what is returned with a space before it, or nothing.
pub fn write_returned(out: &mut Vec<u8>, returned: &Returned) -> Result<(), Memory>
    ensures { OnOk result (out.new.items ≡ returned_after (returned_of returned.now)
        out.old.items) }
{
    match returned {
        Returned::Nothing => Ok(()),
        Returned::Value(value) => {
            write_text(out, b" ")?;
            write_expr(out, value)
        }
        Returned::Build(build) => {
            write_text(out, b" ")?;
            write_build(out, build)
        }
    }
}
