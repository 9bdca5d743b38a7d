//! Which version is written.

ghost use Rattle.std.specs.Prelude.{◌≡◌, map};
ghost use Rattle.std.specs.List.{list_any};
ghost use Rattle.vlt_core.specs.KindedHeads.{is_bound_entry};
ghost use Rattle.vlt_core.specs.View.{set_of, entry_of, func_of, program_of};
ghost use Rattle.cert_format_laws.specs.Versions.{is_linked as has_link, is_ordered as is_ordered_program};

use vlt_core::{Entry, Func, Mode, Program, SetDecl};

fn is_linked(set: &SetDecl) -> bool
    ensures { result ≡ has_link (set_of set.now).links }
{
    !set.links.as_slice().is_empty()
}

fn have_links(sets: &[SetDecl]) -> bool
    ensures { result ≡ list_any (λ d. has_link d.links) (map set_of sets.now) }
{
    for set in sets {
        if is_linked(set) {
            return true;
        }
    }
    false
}

fn is_bound(entry: &Entry) -> bool
    ensures { result ≡ is_bound_entry (entry_of entry.now) }
{
    match entry.mode {
        Mode::Bound(_) => true,
        Mode::Kept | Mode::Taken | Mode::Given | Mode::New => false,
    }
}

fn has_bound(clause: &[Entry]) -> bool
    ensures { result ≡ list_any is_bound_entry (map entry_of clause.now) }
{
    for entry in clause {
        if is_bound(entry) {
            return true;
        }
    }
    false
}

fn have_bounds(fns: &[Func]) -> bool
    ensures { result ≡ list_any (λ f. list_any is_bound_entry f.clause) (map func_of fns.now) }
{
    for f in fns {
        if has_bound(f.clause.as_slice()) {
            return true;
        }
    }
    false
}

/// Whether a set has links or a clause a bound entry.
pub fn is_ordered(p: &Program) -> bool
    ensures { result ≡ is_ordered_program (program_of p.now) }
{
    have_links(p.sets.as_slice()) || have_bounds(p.fns.as_slice())
}
