//! The case of an arm, by the place of its switch and its position.

ghost use Rattle.std.specs.Prelude.{◌≡◌, ℕ};
ghost use Rattle.std.specs.Option.{option_map};
ghost use Rattle.vlt_core.specs.Core.{switch};
ghost use Rattle.vlt_core.specs.View.{form_of, block_of, stmts_of, arms_of};
ghost use Rattle.vlt_reports.specs.Reports.{first_tick, tick_at, tick_in, tick_in_block, tick_in_stmts, tick_in_arms};
ghost use Rattle.vlt_reports.specs.Seen.{tick_seen};

use vlt_base::VarId;
use vlt_core::{Arm, Block, Form, Stmt};

/// An arm of a switch: the variable that is taken apart, and the case.
#[derive(Clone, Copy)]
pub struct Tick {
    pub var: VarId,
    pub case: u8,
}

/// Which arm is looked for.
#[derive(Clone, Copy)]
pub struct Wanted {
    /// The place of its switch.
    pub at: u32,
    pub position: u8,
}

fn first(a: Option<Tick>, b: Option<Tick>) -> Option<Tick>
    ensures { option_map tick_seen result
        ≡ first_tick (option_map tick_seen a) (option_map tick_seen b) }
{
    match a {
        Some(tick) => Some(tick),
        None => b,
    }
}

fn tick_of_arm(v: VarId, arms: &[Arm], position: u8) -> Option<Tick>
    ensures { option_map tick_seen result ≡ tick_at v.0 position (arms_of arms.now) }
{
    if (position as usize) < arms.len() {
        Some(Tick {
            var: v,
            case: arms[position as usize].case,
        })
    } else {
        None
    }
}

#[cycle(ticks)]
fn tick_in_form(wanted: Wanted, form: &Form, here: u32) -> Option<Tick>
    ensures { option_map tick_seen result
        ≡ tick_in wanted.at wanted.position here (form_of form.now) }
{
    match form {
        Form::If {
            then_block,
            else_block,
            ..
        } => first(
            tick_in_block(wanted, then_block),
            tick_in_block(wanted, else_block),
        ),
        Form::While { body, .. } => tick_in_block(wanted, body),
        Form::Switch { v, arms, .. } => tick_in_switch(wanted, *v, arms.as_slice(), here),
        Form::Focus { body, .. } => tick_in_block(wanted, body),
        Form::Scope { body } => tick_in_block(wanted, body),
        _ => None,
    }
}

#[cycle(ticks)]
fn tick_in_switch(wanted: Wanted, v: VarId, arms: &[Arm], here: u32) -> Option<Tick>
    ensures { (end : ℕ) → option_map tick_seen result
        ≡ tick_in wanted.at wanted.position here (switch v.0 (arms_of arms.now) end) }
{
    if here == wanted.at {
        tick_of_arm(v, arms, wanted.position)
    } else {
        tick_in_arms(wanted, arms)
    }
}

#[cycle(ticks)]
fn tick_in_block(wanted: Wanted, block: &Block) -> Option<Tick>
    ensures { option_map tick_seen result
        ≡ tick_in_block wanted.at wanted.position (block_of block.now) }
{
    tick_in_list(wanted, block.stmts.as_slice())
}

/// The arm that is looked for, if the statements have it.
#[cycle(ticks)]
pub fn tick_in_list(wanted: Wanted, stmts: &[Stmt]) -> Option<Tick>
    ensures { option_map tick_seen result
        ≡ tick_in_stmts wanted.at wanted.position (stmts_of stmts.now) }
{
    for s in stmts {
        match tick_in_form(wanted, &s.form, s.at) {
            None => {}
            Some(tick) => return Some(tick),
        }
    }
    None
}

#[cycle(ticks)]
fn tick_in_arms(wanted: Wanted, arms: &[Arm]) -> Option<Tick>
    ensures { option_map tick_seen result
        ≡ tick_in_arms wanted.at wanted.position (arms_of arms.now) }
{
    for arm in arms {
        match tick_in_block(wanted, &arm.body) {
            None => {}
            Some(tick) => return Some(tick),
        }
    }
    None
}
