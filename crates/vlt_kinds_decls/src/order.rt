//! Where the order of a state set leads.

ghost use Rattle.std.specs.Prelude.{◌≡◌, ◌==◌, ◌||◌, ◌&&◌, ◌<◌, ℕ, map};
ghost use Rattle.std.specs.List.{list_any};
ghost use Rattle.vlt_base.specs.States.{has_state};
ghost use Rattle.vlt_core.specs.View.{link_of};
ghost use Rattle.vlt_core.specs.Lookups.{leads_up};
ghost use Rattle.vlt_kinds_decls.specs.Decls as d;

use vlt_base::StateSet;
use vlt_core::Link;

/// The state, and each one from which a link leads into the set.
fn with_lower(links: &[Link], set: StateSet, state: u8) -> StateSet
    requires { state < 32 }
    ensures { (s : ℕ) → s < 32 → has_state result s
        ≡ (s == state || list_any (λ l. l.lower == s && has_state set l.upper) links.now) }
{
    let mut all = StateSet::only(state);
    for l in links {
        if l.lower < 32 && set.has(l.upper) {
            all = all.join(StateSet::only(l.lower));
        }
    }
    all
}

/// The states from which at most 30 links lead to this one.
fn leading_up(links: &[Link], state: u8) -> StateSet
    requires { state < 32 }
    ensures { (s : ℕ) → s < 32 → has_state result s
        ≡ leads_up (map link_of links.now) 30 s state }
{
    let mut set = StateSet::only(state);
    for n in 0..30_usize {
        set = with_lower(links, set, state);
    }
    set
}

/// Whether a link leads from the state into the set.
fn leads_in(links: &[Link], set: StateSet, from: u8) -> bool
    ensures { result ≡ list_any (λ l. l.lower == from && has_state set l.upper) links.now }
{
    for l in links {
        if l.lower == from && set.has(l.upper) {
            return true;
        }
    }
    false
}

fn reaches(links: &[Link], set: StateSet, from: u8, to: u8) -> bool
    ensures { result ≡ (from == to
        || list_any (λ l. l.lower == from && has_state set l.upper) links.now) }
{
    from == to || leads_in(links, set, from)
}

fn leads_below(links: &[Link], from: u8, to: u8) -> bool
    requires { to < 32 }
    ensures { result ≡ leads_up (map link_of links.now) 31 from to }
{
    let set = leading_up(links, to);
    reaches(links, set, from, to)
}

/// Whether at most 31 links lead from one state to another.
fn leads(links: &[Link], from: u8, to: u8) -> bool
    ensures { result ≡ leads_up (map link_of links.now) 31 from to }
{
    if to < 32 {
        leads_below(links, from, to)
    } else {
        from == to
    }
}

fn some_leads_back(all: &[Link], links: &[Link]) -> bool
    ensures { result ≡ list_any (λ l. leads_up (map link_of all.now) 31 l.upper l.lower)
        (map link_of links.now) }
{
    for l in links {
        if leads(all, l.upper, l.lower) {
            return true;
        }
    }
    false
}

/// Whether links lead from some state to itself.
pub fn has_loop(links: &[Link]) -> bool
    ensures { result ≡ d.has_loop (map link_of links.now) }
{
    some_leads_back(links, links)
}
