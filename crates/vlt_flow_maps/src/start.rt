//! The map that a body begins with.

ghost use Rattle.std.specs.Prelude.{◌≡◌, ◌⊎◌, ◌≤◌, ◌^◌, true, length, IfOk, IfErr, OnOk, MatchResult};
ghost use Rattle.vlt_core.specs.View.{program_of, func_of, tok_of, mode_of, entry_of};
ghost use Rattle.vlt_core.specs.HeldView.{after_of};
ghost use Rattle.vlt_core.specs.Lookups.{is_before, is_held_before};
ghost use Rattle.vlt_core.specs.Derives.{start_map};
ghost use Rattle.vlt_core.specs.Instances.{instance, entry_in};
ghost use Rattle.vlt_core.specs.Maps.{absent};
ghost use Rattle.vlt_keyset.specs.Held.{map_of, HasPlace, IsSameRange};
ghost use Rattle.vlt_rows.specs.Unfit.{UnfitBy};
ghost use Rattle.vlt_rows.specs.declared.sink.RowError.TheVariants.{Memory, Unfit};
ghost use Rattle.vlt_flow_maps.specs.Starts.{IsGiven, IsThere, IsStarted, HasRange, HasKeys};
ghost use Rattle.vlt_flow_maps.specs.Unfit.{IsUnfitEntry, HasNoStart};

use std::alloc::Global;
use vlt_base::VarId;
use vlt_core::{After, Entry, Func, Mode, Program, Row, Tok, Wanted};
use vlt_keyset::Held;
use vlt_rows::{RowError, states_before};

/// Whether the key is held before the call.
fn is_before(mode: Mode) -> bool
    ensures { result ≡ is_before (mode_of mode) }
{
    match mode {
        Mode::Kept | Mode::Taken | Mode::Bound(_) => true,
        Mode::Given | Mode::New => false,
    }
}

/// An absent token becomes what a row leaves; one that is there already stays as it is.
fn give(held: &mut Held, tok: Tok, after: After)
    requires { HasPlace held.old (tok_of tok) }
    ensures range { IsSameRange held.old held.new }
    ensures given { IsGiven (tok_of tok) (after_of after) (map_of held.old) (map_of held.new) ⊎
        IsThere (tok_of tok) (map_of held.old) (map_of held.new) }
{
    match held.step(Row {
        tok,
        wanted: Wanted::Absent,
        after,
    }) {
        Ok(()) => {}
        Err(_) => {}
    }
}

/// The key of an entry is held, if it is so before the call. Of two entries with one key the first counts.
fn give_key(
    held: &mut Held,
    p: &Program,
    f: &Func,
    origin: Option<u8>,
    e: Entry,
) -> Result<(), RowError>
    requires { HasRange (func_of f.now) held.old }
    ensures started { OnOk result (IsStarted (program_of p.now)
        (instance (program_of p.now) (func_of f.now) origin)
        (entry_in (program_of p.now) (func_of f.now) origin (entry_of e))
        (map_of held.old) (map_of held.new)) }
    ensures range { IsSameRange held.old held.new }
    ensures unfit { IfErr result (λ x. (x ≡ Unfit) × (is_held_before (entry_of e) ≡ true) ×
        IsUnfitEntry (program_of p.now) (instance (program_of p.now) (func_of f.now) origin)
        (entry_in (program_of p.now) (func_of f.now) origin (entry_of e))) }
{
    if !is_before(e.mode) {
        return Ok(());
    }
    let Some(states) = states_before(p, f, origin, e).set() else {
        return Err(RowError::Unfit);
    };
    if !held.has(Tok::Key(e.key)) {
        return Err(RowError::Unfit);
    }
    give(held, Tok::Key(e.key), After::Set(states));
    Ok(())
}

fn count(n: usize) -> Result<u32, RowError>
    ensures { MatchResult result (λ m. m ≡ n) (λ e. (e ≡ Unfit) × (2 ^ 32 ≤ n)) }
{
    match u32::try_from(n) {
        Ok(n) => Ok(n),
        Err(_) => Err(RowError::Unfit),
    }
}

/// Each token is absent.
fn absent_map(alloc: Global, f: &Func) -> Result<Held, RowError>
    ensures absent { IfOk result (λ h. map_of h ≡ (λ t. absent)) }
    ensures range { IfOk result (HasRange (func_of f.now)) }
    ensures unfit { IfErr result (UnfitBy ((2 ^ 32 ≤ length (func_of f.now).keys) ⊎
        (2 ^ 32 ≤ length (func_of f.now).vars))) }
{
    let keys = count(f.keys.len())?;
    let vars = count(f.vars.len())?;
    match Held::open(alloc, keys, vars) {
        Ok(held) => Ok(held),
        Err(_) => Err(RowError::Memory),
    }
}

/// The keys of the instance's clause are held, all else is absent.
fn start_keys(alloc: Global, p: &Program, f: &Func, origin: Option<u8>) -> Result<Held, RowError>
    ensures keys { IfOk result (λ h. HasKeys (program_of p.now)
        (instance (program_of p.now) (func_of f.now) origin) (map_of h)) }
    ensures range { IfOk result (HasRange (func_of f.now)) }
    ensures unfit { IfErr result (UnfitBy (HasNoStart (program_of p.now)
        (instance (program_of p.now) (func_of f.now) origin))) }
{
    let mut held = absent_map(alloc, f)?;
    for e in f.clause.as_slice() {
        give_key(&mut held, p, f, origin, *e)?;
    }
    Ok(held)
}

/// The map that a body begins with in the instance of this origin. `Unfit` where there are more keys or variables than numbers,
/// or where an entry of the clause names a key that the function doesn't have, or states of which there is no set.
pub fn start_map_of(
    alloc: Global,
    p: &Program,
    f: &Func,
    origin: Option<u8>,
) -> Result<Held, RowError>
    ensures map { MatchResult result
        (λ h. map_of h ≡ start_map (program_of p.now)
        (instance (program_of p.now) (func_of f.now) origin))
        (UnfitBy (HasNoStart (program_of p.now)
        (instance (program_of p.now) (func_of f.now) origin))) }
    ensures range { IfOk result (HasRange (func_of f.now)) }
{
    let mut held = start_keys(alloc, p, f, origin)?;
    for v in 0..f.params {
        if f.is_owning_var(VarId(v)) {
            give(&mut held, Tok::Var(VarId(v)), After::Full);
        }
    }
    Ok(held)
}
