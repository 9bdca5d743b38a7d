//! What is written to frames.

ghost use Rattle.std.specs.Prelude.{◌≡◌, ◌<◌, ℕ, Some, OnOk, length};
ghost use Rattle.std.specs.Option.{option_map};
ghost use Rattle.vlt_meaning.specs.World.{World};
ghost use Rattle.vlt_meaning.specs.Step.{with_var, with_key, is_fillable, fill};
ghost use Rattle.vlt_trace_worlds.specs.Steps.{Goes};
ghost use Rattle.vlt_trace_worlds.specs.View.{frame_view, value_view, var_in, key_in};
ghost use Rattle.vlt_trace_worlds.specs.Running.{func_in};

use crate::running::Running;
use crate::stops::{Halt, Reason, Stop};
use crate::worlds::{Frame, Value};
use std::alloc::AllocError;
use vlt_base::{Items, KeyId, VarId};

#[tactic(auto, using(crate::proofs::Written::var_more))]
fn grow_vars(vars: &mut Items<Option<Value>>, n: usize) -> Result<(), AllocError>
    ensures same { (x : ℕ) → var_in vars.new x ≡ var_in vars.old x }
    ensures long { OnOk result (n < length vars.new) }
{
    while vars.len() <= n {
        vars.push(None)?;
    }
    Ok(())
}

#[tactic(auto, using(crate::proofs::Written::joined_more))]
fn grow_keys(keys: &mut Items<Option<usize>>, n: usize) -> Result<(), AllocError>
    ensures same { (x : ℕ) → key_in keys.new x ≡ key_in keys.old x }
    ensures long { OnOk result (n < length keys.new) }
{
    while keys.len() <= n {
        keys.push(None)?;
    }
    Ok(())
}

impl Frame {
    #[tactic(auto, using(crate::proofs::Written::var_written))]
    pub fn set_var(&mut self, v: VarId, a: Option<Value>) -> Result<(), AllocError>
        ensures { OnOk result (frame_view self.new
            ≡ with_var v.0 (option_map value_view a) (frame_view self.old)) }
    {
        grow_vars(&mut self.vars, v.0 as usize)?;
        self.vars.set(v.0 as usize, a);
        Ok(())
    }

    #[tactic(auto, using(crate::proofs::Written::key_written))]
    pub fn set_key(&mut self, k: KeyId, n: usize) -> Result<(), AllocError>
        ensures { OnOk result (frame_view self.new ≡ with_key k.0 n (frame_view self.old)) }
    {
        grow_keys(&mut self.keys, k.0 as usize)?;
        self.keys.set(k.0 as usize, Some(n));
        Ok(())
    }
}

/// Whether an owning variable may be filled, and any other.
pub fn is_fillable(at: &Running<'_>, v: VarId, frame: &Frame) -> bool
    ensures { result ≡ is_fillable (func_in at.now) v.0 (frame_view frame.now) }
{
    !(at.func.is_owning_var(v) && frame.var(v).is_some())
}

/// A variable gets a value.
#[tactic(auto, unfolding(vlt_meaning::specs::Step::fill, vlt_meaning::specs::Step::where_so))]
pub fn fill(at: &Running<'_>, v: VarId, a: Value, frame: &mut Frame) -> Result<(), Halt>
    ensures { (w : World) →
        Goes (fill (func_in at.now) v.0 (value_view a) (frame_view frame.old) w)
        result (frame_view frame.new) w }
{
    if is_fillable(at, v, frame) {
        match frame.set_var(v, Some(a)) {
            Ok(()) => Ok(()),
            Err(_) => Err(Halt::Memory),
        }
    } else {
        Err(Halt::Ends(Stop::Fault(Reason::NotEmpty, None)))
    }
}
