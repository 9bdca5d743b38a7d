//! What is written of a token at a point.

ghost use Rattle.std.specs.Prelude.{◌≡◌, ◌++◌, IfOk};
ghost use Rattle.vlt_base.specs.States.{is_bit};
ghost use Rattle.vlt_core.specs.View.{program_of, func_of, tok_of};
ghost use Rattle.vlt_faults.specs.Finding.Ones.{many_of};
ghost use Rattle.vlt_reports.specs.Reports.{in_states};
ghost use Rattle.vlt_reports.specs.Seen.{names_known};
ghost use Rattle.vlt_reports.specs.Writing.{Adds};
ghost use Rattle.vlt_points.specs.Lines.{has_some, has_present, text_if, shown_name, statuses_text, token_text};

use std::alloc::{AllocError, Global};
use vlt_base::{Items, StateSet, either};
use vlt_core::{Func, Program, Tok};
use vlt_faults::Ones;
use vlt_reports::{add_set, state_names, token_name};

fn has_bits(mask: u32) -> bool
    ensures { result ≡ has_some (is_bit mask) }
{
    mask > 0
}

/// Whether some path comes with the token.
fn has_present(m: Ones) -> bool
    ensures { result ≡ has_present (many_of m) }
{
    either(has_bits(m.held), either(has_bits(m.lent), m.full))
}

/// A hidden name is shown as `_`.
fn shown_name(name: &[u8]) -> &[u8]
    ensures { result.now ≡ shown_name name.now }
{
    if name.is_empty() { b"_" } else { name }
}

fn add_if(out: &mut Vec<u8>, holds: bool, word: &[u8]) -> Result<(), AllocError>
    ensures { Adds result out.old.items out.new.items (text_if holds word.now) }
{
    if holds {
        out.extend_from_slice(word)
    } else {
        Ok(())
    }
}

/// Adds a word and the states of this mask, if it has any.
fn add_states(
    out: &mut Vec<u8>,
    alloc: Global,
    names: Option<&[Items<u8>]>,
    word: &[u8],
    mask: u32,
) -> Result<(), AllocError>
    ensures { Adds result out.old.items out.new.items (text_if (has_some (is_bit mask))
        (word.now ++ in_states (names_known names.entry) (is_bit mask))) }
{
    match StateSet::of(mask) {
        None => Ok(()),
        Some(states) => {
            out.extend_from_slice(word)?;
            add_set(out, alloc, names, states)?;
            Ok(())
        }
    }
}

fn add_statuses(
    out: &mut Vec<u8>,
    alloc: Global,
    names: Option<&[Items<u8>]>,
    m: Ones,
) -> Result<(), AllocError>
    ensures { Adds result out.old.items out.new.items
        (statuses_text (names_known names.entry) (many_of m)) }
{
    add_states(out, alloc, names, b"", m.held)?;
    add_states(out, alloc, names, b":lent", m.lent)?;
    add_if(out, m.full, b":full")?;
    add_if(out, m.absent, b":absent")?;
    add_if(out, !either(has_present(m), m.absent), b":none")
}

/// What is written of a token of which this is found: nothing if it is absent on all paths.
pub fn token_text(
    alloc: Global,
    p: &Program,
    f: &Func,
    tok: Tok,
    m: Ones,
) -> Result<Vec<u8>, AllocError>
    ensures { IfOk result (λ v. v.items
        ≡ token_text (program_of p.now) (func_of f.now) (tok_of tok) (many_of m)) }
{
    let mut out = Vec::new(alloc);
    if either(has_present(m), !m.absent) {
        out.extend_from_slice(b" ")?;
        out.extend_from_slice(shown_name(token_name(f, tok)))?;
        add_statuses(&mut out, alloc, state_names(p, f, tok), m)?;
    }
    Ok(out)
}
