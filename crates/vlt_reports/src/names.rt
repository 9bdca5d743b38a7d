//! Names, as the text has them.

ghost use Rattle.std.specs.Prelude.{◌≡◌};
ghost use Rattle.vlt_core.specs.Instances.{bound_in};
ghost use Rattle.vlt_core.specs.View.{program_of, func_of, tok_of};
ghost use Rattle.vlt_reports.specs.Reports as r;
ghost use Rattle.vlt_reports.specs.Seen.{names_known};

use vlt_base::Items;
use vlt_core::{Func, Program, Tok, TypeDecl};

/// A key or a variable, as the text names it; a hidden one has the empty name.
pub fn token_name(f: &Func, token: Tok) -> &[u8]
    ensures { result.now ≡ r.token_name (func_of f.now) (tok_of token) }
{
    match token {
        Tok::Key(k) => match f.keys.get(k.0 as usize) {
            None => &[],
            Some(d) => d.name.as_slice(),
        },
        Tok::Var(v) => match f.vars.get(v.0 as usize) {
            None => &[],
            Some(d) => d.name.as_slice(),
        },
    }
}

/// The names of the states that a token's object can have, where its type has a set of states.
pub fn state_names<'a>(p: &'a Program, f: &Func, token: Tok) -> Option<&'a [Items<u8>]>
    ensures { names_known result
        ≡ r.state_names (program_of p.now) (func_of f.now) (tok_of token) }
{
    let Tok::Key(k) = token else {
        return None;
    };
    let t = f.key_type(k)?;
    let set = match p.types.get(t.0 as usize)? {
        TypeDecl::Abstract { set, .. } => *set,
        TypeDecl::Struct { set, .. } => *set,
        TypeDecl::Variant { .. } => None,
    };
    let d = p.sets.get(set?.0 as usize)?;
    Some(d.states.as_slice())
}

/// A state of the object of a function's bound entry, as the text names it.
pub fn bound_state<'a>(p: &'a Program, f: &Func, state: u8) -> &'a [u8]
    ensures { result.now ≡ r.bound_state (program_of p.now) (func_of f.now) state
        (bound_in (func_of f.now).clause) }
{
    let Some(bound) = f.bound() else {
        return &[];
    };
    let Some(names) = state_names(p, f, Tok::Key(bound.key)) else {
        return &[];
    };
    match names.get(state as usize) {
        None => &[],
        Some(name) => name.as_slice(),
    }
}
