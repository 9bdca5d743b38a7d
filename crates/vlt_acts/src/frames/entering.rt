//! Functions that are entered.

ghost use Rattle.std.specs.Prelude.{◌≡◌, ◌≤◌, ◌<◌, ◌+◌, ◌*◌, ◌^◌, ℕ, length, Some, IfSome, slice_get, vec_capacity};
ghost use Rattle.vlt_core.specs.Core as core;
ghost use Rattle.vlt_core.specs.View.{func_of, keys_of};
ghost use Rattle.vlt_heap.specs.Items.{Items};
ghost use Rattle.vlt_meaning.specs.Run.{first_frame};
ghost use Rattle.vlt_acts.specs.Values.Shown.{IsTable, IsGrown, ShowsFrame};
ghost use Rattle.vlt_acts.specs.Frames.Frames.{IsLike, frame_end, IsRunning, IsBelow};
ghost use Rattle.vlt_acts.specs.Frames.Entered.{Enters};
ghost use Rattle.vlt_acts.specs.Frames.Named.{AreNamed};

use crate::frames::waiting::Waiting;
use crate::values::Values;
use vlt_base::{KeyId, VarId};
use vlt_core::Func;

/// Puts the slots of keys of the running frame at the end.
fn push_keys(values: &mut Values, keys: &[KeyId])
    requires table { IsTable values.old }
    requires room { length values.old.slots.items + length keys.now ≤ vec_capacity
        values.old.slots }
    ensures grown { IsGrown values.old values.new }
    ensures long { length values.new.slots.items
        ≡ length values.old.slots.items + length keys.now }
    ensures room { vec_capacity values.old.slots ≤ vec_capacity values.new.slots }
    ensures named { AreNamed (keys_of keys.now) values.old
        (length values.old.slots.items) values.new }
{
    match keys.split_first() {
        None => {}
        Some((k, rest)) => {
            let a = values.key_slot(*k);
            values.push_slot(a);
            push_keys(values, rest);
        }
    }
}

/// Enters a function, the values of whose arguments stand after the frame of the caller.
pub fn enter<'a>(
    values: &mut Values,
    caller: &'a Func,
    callee: &Func,
    target: Option<VarId>,
    keys: &'a [KeyId],
) -> Waiting<'a>
    requires running { IsRunning values.old (func_of caller.now)
        ((func_of callee.now).params * values.old.width) }
    requires params { (func_of callee.now).params ≤ length (func_of callee.now).vars }
    requires few { length (func_of callee.now).vars < 2 ^ 32 }
    requires head { length keys.now ≤ length (func_of callee.now).keys }
    requires target { IfSome target (λ v. v.0 < values.old.vars) }
    requires keys { (i k : ℕ) → slice_get (keys_of keys.now) i ≡ Some k →
        k < length (func_of caller.now).keys }
    requires room { frame_end values.old.width
        (frame_end values.old.width values.old.base (func_of caller.now)) (func_of callee.now)
        ≤ vec_capacity values.old.slots }
    ensures waits { IsBelow result values.new.width values.new.base }
    ensures base { result.base ≡ values.old.base }
    ensures func { result.func.now ≡ caller.now }
    ensures target { result.target ≡ target }
    ensures keys { result.keys.now ≡ keys.now }
    ensures running { IsRunning values.new (func_of callee.now) 0 }
    ensures width { values.new.width ≡ values.old.width }
    ensures room { vec_capacity values.old.slots ≤ vec_capacity values.new.slots }
    ensures same { (k : ℕ) → k < length values.old.slots.items →
        slice_get values.new.slots.items k ≡ slice_get values.old.slots.items k }
    ensures enters { (f g : core.Func) → IsLike (func_of caller.now) f →
        IsLike (func_of callee.now) g → Enters f g (keys_of keys.now) values.old values.new }
{
    let width = values.width() as usize;
    let base = values.len() - callee.params as usize * width;
    let vars = callee.vars.len();
    values.grow_to(base + vars * width);
    push_keys(values, keys);
    values.grow_to(base + vars * width + callee.keys.len());
    let waiting = Waiting {
        base: values.base(),
        vars: values.vars(),
        func: caller,
        target,
        keys,
    };
    values.run(base, vars as u32);
    waiting
}

/// The frame of the function that a run begins with.
pub fn start(values: &mut Values, main: &Func)
    requires few { length (func_of main.now).vars < 2 ^ 32 }
    requires empty { length values.old.slots.items ≡ 0 }
    requires room { frame_end values.old.width 0
        (func_of main.now) ≤ vec_capacity values.old.slots }
    ensures running { IsRunning values.new (func_of main.now) 0 }
    ensures base { values.new.base ≡ 0 }
    ensures width { values.new.width ≡ values.old.width }
    ensures room { vec_capacity values.old.slots ≤ vec_capacity values.new.slots }
    ensures shows { (items : Items) (depth : ℕ) →
        ShowsFrame items values.new (first_frame depth) }
{
    let vars = main.vars.len();
    values.grow_to(vars * values.width() as usize + main.keys.len());
    values.run(0, vars as u32);
}
