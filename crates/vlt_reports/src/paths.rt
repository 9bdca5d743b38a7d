//! The lines of paths.

ghost use Rattle.std.specs.Prelude.{◌≡◌, ◌<◌, ◌^◌, ◌-◌, length, IfOk};
ghost use Rattle.std.specs.Option.{option_map, option_copied};
ghost use Rattle.vlt_core.specs.Lookups.{variant_of};
ghost use Rattle.vlt_core.specs.View.{program_of, func_of, case_of};
ghost use Rattle.vlt_core.specs.FaultView.{pick_of, choice_of, choices_of};
ghost use Rattle.vlt_reports.specs.Reports.{case_in, tick_text, pick_text, choice_text, instance_text, path_line, paths_text};
ghost use Rattle.vlt_reports.specs.Seen.{tick_seen};
ghost use Rattle.vlt_reports.specs.Writing.{Adds};

use crate::lines::place_within;
use crate::names::bound_state;
use crate::statuses::add;
use crate::ticks::{Tick, Wanted, tick_in_list};
use std::alloc::{AllocError, Global};
use vlt_core::{CaseDecl, Choice, Func, Pick, Program, Witness};

fn case_of<'a>(p: &'a Program, f: &Func, tick: Tick) -> Option<&'a CaseDecl>
    ensures { option_map case_of (option_copied result)
        ≡ case_in (program_of p.now) (variant_of (func_of f.now) tick.var.0) tick.case }
{
    match f.variant(tick.var) {
        None => None,
        Some(v) => p.case_at(v.type_id, tick.case),
    }
}

/// Adds the case of an arm, with its tick.
fn add_tick(out: &mut Vec<u8>, p: &Program, f: &Func, tick: Option<Tick>) -> Result<(), AllocError>
    ensures { Adds result out.old.items out.new.items
        (tick_text (program_of p.now) (func_of f.now) (option_map tick_seen tick)) }
{
    let Some(tick) = tick else {
        return Ok(());
    };
    match case_of(p, f, tick) {
        None => Ok(()),
        Some(d) => {
            add(out, b"'")?;
            add(out, d.name.as_slice())
        }
    }
}

/// Adds which way a path takes at a place.
fn add_pick(out: &mut Vec<u8>, p: &Program, f: &Func, choice: Choice) -> Result<(), AllocError>
    ensures { Adds result out.old.items out.new.items
        (pick_text (program_of p.now) (func_of f.now) choice.at (pick_of choice.pick)) }
{
    match choice.pick {
        Pick::Then => add(out, b"then"),
        Pick::Else => add(out, b"else"),
        Pick::Turn => add(out, b"turn"),
        Pick::Exit => add(out, b"exit"),
        Pick::Case(position) => {
            let wanted = Wanted {
                at: choice.at,
                position,
            };
            add_tick(out, p, f, tick_in_list(wanted, f.body.as_slice()))
        }
    }
}

fn add_choice(
    out: &mut Vec<u8>,
    alloc: Global,
    text: &[u8],
    p: &Program,
    f: &Func,
    choice: Choice,
) -> Result<(), AllocError>
    requires { length text.now < 2 ^ 32 - 1 }
    ensures { Adds result out.old.items out.new.items
        (choice_text text.now (program_of p.now) (func_of f.now) (choice_of choice)) }
{
    let (line, column) = place_within(text, choice.at);
    let place = format!(in alloc; " {line}:{column}=")?.into_bytes();
    add(out, place.as_slice())?;
    add_pick(out, p, f, choice)
}

/// The words for the instance of a function.
pub fn instance(
    alloc: Global,
    p: &Program,
    f: &Func,
    variable: &[u8],
    origin: Option<u8>,
) -> Result<Vec<u8>, AllocError>
    ensures { IfOk result (λ v. v.items
        ≡ instance_text (program_of p.now) (func_of f.now) variable.now origin) }
{
    let mut out = Vec::new(alloc);
    if let Some(state) = origin {
        add(&mut out, b" ")?;
        add(&mut out, variable)?;
        add(&mut out, b"=")?;
        add(&mut out, bound_state(p, f, state))?;
    }
    Ok(out)
}

/// The choices of a path, after the words for its instance.
fn path(
    alloc: Global,
    text: &[u8],
    p: &Program,
    f: &Func,
    instance: &[u8],
    choices: &[Choice],
) -> Result<Vec<u8>, AllocError>
    requires { length text.now < 2 ^ 32 - 1 }
    ensures { IfOk result (λ v. v.items
        ≡ path_line text.now (program_of p.now) (func_of f.now) instance.now
        (choices_of choices.now)) }
{
    let mut out = Vec::new(alloc);
    add(&mut out, b"path")?;
    add(&mut out, instance)?;
    for choice in choices {
        add_choice(&mut out, alloc, text, p, f, *choice)?;
    }
    add(&mut out, b"\n")?;
    Ok(out)
}

/// The path of a witness to a faulty row, or its two to a faulty join, in the function's instance of this origin. The variable is
/// the one that stands for the state of a bound entry's object.
pub fn path_lines(
    alloc: Global,
    text: &[u8],
    p: &Program,
    f: &Func,
    variable: &[u8],
    origin: Option<u8>,
    witness: &Witness,
) -> Result<Vec<u8>, AllocError>
    requires { length text.now < 2 ^ 32 - 1 }
    ensures { IfOk result (λ v. v.items ≡ paths_text text.now (program_of p.now) (func_of f.now)
        (instance_text (program_of p.now) (func_of f.now) variable.now origin)
        (choices_of witness.now.first) (option_map choices_of witness.now.second)) }
{
    let words = instance(alloc, p, f, variable, origin)?;
    let mut out = path(alloc, text, p, f, &words, witness.first.as_slice())?;
    if let Some(choices) = &witness.second {
        let second = path(alloc, text, p, f, &words, choices.as_slice())?;
        add(&mut out, second.as_slice())?;
    }
    Ok(out)
}
