//! The lines of instances, functions and programs.

ghost use Rattle.std.specs.Prelude.{◌≡◌, ◌<◌, ◌-◌, ◌^◌, false, length, IfOk, IfErr};
ghost use Rattle.vlt_core.specs.View.{program_of, func_of};
ghost use Rattle.vlt_core.specs.Instances.{instance};
ghost use Rattle.vlt_rows.specs.Unfit.{UnfitBy};
ghost use Rattle.vlt_faults.specs.Judge.Faulty.{IsUntold, HasUntold};
ghost use Rattle.vlt_reports.specs.Writing.{Adds};
ghost use Rattle.vlt_points.specs.Lines.{function_line, AreInstanceLines, AreFunctionLines, AreKeysLines, names_by};
ghost use Rattle.vlt_points.specs.Writing.{AddsLines, program_in, func_in};
ghost use Rattle.vlt_points.specs.Unfit.{HasUnlisted};

use crate::found::Found;
use crate::page::{Page, Source};
use crate::points::{Walk, add_block};
use crate::sweep::find;
use std::alloc::{AllocError, Global};
use vlt_core::{Func, Program};
use vlt_faults::statement_count;
use vlt_flow_maps::start_map_of;
use vlt_reports::instance;
use vlt_rows::{FlowBlock, RowError, body_flow, origins};

fn add_head(
    lines: &mut Vec<u8>,
    source: &Source,
    variable: &[u8],
    origin: Option<u8>,
) -> Result<(), AllocError>
    ensures { Adds result lines.old.items lines.new.items
        (function_line (program_in source.now) (func_in source.now) variable.now origin) }
{
    let words = instance(source.alloc, source.program, source.func, variable, origin)?;
    lines.extend_from_slice(b"function ")?;
    lines.extend_from_slice(source.func.name.as_slice())?;
    lines.extend_from_slice(words.as_slice())?;
    lines.extend_from_slice(b"\n")
}

/// Adds the lines of a function's instance of this origin.
fn add_instance(
    lines: Vec<u8>,
    source: &Source,
    variable: &[u8],
    origin: Option<u8>,
) -> Result<Vec<u8>, RowError>
    requires { length source.now.text.now < 2 ^ 32 - 1 }
    ensures lines { IfOk result (λ v. AddsLines lines.items v.items (AreInstanceLines
        source.now.text.now (program_in source.now) (func_in source.now) variable.now
        origin)) }
    ensures unfit { IfErr result (UnfitBy (IsUntold (program_in source.now)
        (instance (program_in source.now) (func_in source.now) origin))) }
{
    let mut lines = lines;
    let alloc = source.alloc;
    add_head(&mut lines, source, variable, origin)?;
    let body = body_flow(alloc, source.program, source.func, origin)?;
    let start = start_map_of(alloc, source.program, source.func, origin)?;
    let count = statement_count(&body)?;
    let mut m = Found::at_start(alloc, source.func, &start)?;
    let kept = find(alloc, &body, count, &m)?;
    let mut page = Page::open(alloc, source.func, lines)?;
    let walk = Walk {
        source: *source,
        kept: &kept,
    };
    add_block(&walk, &mut page, &body, 0, &mut m)?;
    Ok(page.lines)
}

/// Adds the lines of a function; an external has none.
fn add_function(lines: Vec<u8>, source: &Source, variable: &[u8]) -> Result<Vec<u8>, RowError>
    requires { length source.now.text.now < 2 ^ 32 - 1 }
    ensures lines { IfOk result (λ v. AddsLines lines.items v.items (AreFunctionLines
        source.now.text.now (program_in source.now) (func_in source.now) variable.now)) }
    ensures unfit { IfErr result (UnfitBy (((func_in source.now).external ≡ false) ×
        HasUntold (program_in source.now) (func_in source.now))) }
{
    if source.func.external {
        return Ok(lines);
    }
    let mut lines = lines;
    let origins = origins(source.alloc, source.program, source.func)?;
    for origin in origins.as_slice() {
        lines = add_instance(lines, source, variable, *origin)?;
    }
    Ok(lines)
}

/// The lines of `keys`. `variables` has, by number, the name that stands for the state of each function's bound entry;
/// past their end there is none. `Unfit` if in an instance of a function with a body the points can't be told
/// (`HasUnlisted`).
pub fn keys_lines(
    alloc: Global,
    text: &[u8],
    p: &Program,
    variables: &[&[u8]],
) -> Result<Vec<u8>, RowError>
    requires { length text.now < 2 ^ 32 - 1 }
    ensures lines { IfOk result (λ v. AreKeysLines text.now (program_of p.now)
        (names_by variables.now) v.items) }
    ensures unfit { IfErr result (UnfitBy (HasUnlisted (program_of p.now))) }
{
    let mut lines = Vec::new(alloc);
    for (number, func) in p.fns.as_slice().iter().enumerate() {
        let source = Source {
            alloc,
            text,
            program: p,
            func,
        };
        lines = add_function(lines, &source, name_at(variables, number))?;
    }
    Ok(lines)
}

/// The name of this number; past the end the empty one.
fn name_at<'a>(names: &[&'a [u8]], number: usize) -> &'a [u8]
    ensures { result.now ≡ names_by names.now number }
{
    match names.get(number) {
        None => &[],
        Some(name) => name,
    }
}
