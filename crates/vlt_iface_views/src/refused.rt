//! The rules on what is given.

ghost use Rattle.std.specs.Prelude.{◌≡◌, ◌||◌, not, map, option_map};
ghost use Rattle.vlt_syntax.specs.View.{decl_of, name_of, header_key_of};
ghost use Rattle.vlt_kinds_types.specs.Names.Refusals.{least_from, found_each, of_each, least};
ghost use Rattle.vlt_iface.specs.Rules as r;
ghost use Rattle.vlt_iface.specs.Seen.{decls_seen};
ghost use Rattle.vlt_iface.specs.Given.{giver_of, HasGivers, refused_in};

use vlt_iface::rules::{GIVEN_HEAD, GIVEN_STRUCT, INTERFACE_BODY};
use vlt_iface::{Given, same_head, same_name_if};
use vlt_kinds_types::{LeastRefusal, Refusal};
use vlt_syntax::{Decl, HeaderKey, Name};

fn check_bodies(wanted: &[Decl], found: &mut LeastRefusal)
    ensures { found.new.least
        ≡ found_each r.body_refused (map decl_of wanted.now) found.old.least }
{
    for decl in wanted {
        if let Decl::Function { head, .. } = decl {
            found.add_if(true, INTERFACE_BODY, head.name.at.from);
        }
    }
}

fn has_header(params: &[HeaderKey]) -> bool
    ensures { result ≡ r.is_filled (map header_key_of params.now) }
{
    !params.is_empty()
}

fn is_other_struct(params: &[HeaderKey], states: &Option<Name>, other: &Option<Name>) -> bool
    ensures { result ≡ (r.is_filled (map header_key_of params.now) || not (r.same_if r.same_name
        (option_map name_of states.now) (option_map name_of other.now))) }
{
    has_header(params) || !same_name_if(states, other)
}

fn check_given(wanted: &Decl, given: &Decl, found: &mut LeastRefusal)
    ensures { found.new.least ≡ least_from found.old.least
        (r.given_refused_by (decl_of wanted.now) (decl_of given.now)) }
{
    match (wanted, given) {
        (Decl::Extern { head, .. }, Decl::Function { head: other, .. }) => {
            found.add_if(!same_head(head, other), GIVEN_HEAD, other.name.at.from);
        }
        (
            Decl::Abstract { states, .. },
            Decl::Struct {
                name,
                params,
                states: other,
                ..
            },
        ) => {
            let is_other = is_other_struct(params.as_slice(), states, other);
            found.add_if(is_other, GIVEN_STRUCT, name.at.from);
        }
        _ => {}
    }
}

fn check_one(wanted: &Decl, given: &Given<'_>, found: &mut LeastRefusal)
    ensures { found.new.least ≡ least_from found.old.least
        (refused_in (giver_of given.now) (decl_of wanted.now)) }
{
    if let Some(decl) = given.giver(wanted) {
        check_given(wanted, decl, found);
    }
}

fn check_all(wanted: &[Decl], given: &Given<'_>, found: &mut LeastRefusal)
    ensures { found.new.least ≡ found_each (refused_in (giver_of given.now))
        (map decl_of wanted.now) found.old.least }
{
    for decl in wanted {
        check_one(decl, given, found);
    }
}

/// What refuses the interface: its first function with a body.
#[tactic(auto, using(vlt_iface::proofs::Standing::least_is))]
pub fn refused_bodies(wanted: &[Decl]) -> Option<Refusal>
    ensures { result ≡ least (of_each r.body_refused (map decl_of wanted.now)) }
{
    let mut found = LeastRefusal { least: None };
    check_bodies(wanted, &mut found);
    found.least
}

/// What refuses the declarations that are given for the interface's.
pub fn refused_given(wanted: &[Decl], given: &Given<'_>) -> Option<Refusal>
    requires { HasGivers given.now }
    ensures { result ≡ least (of_each (r.given_refused (decls_seen given.now.all))
        (map decl_of wanted.now)) }
{
    let mut found = LeastRefusal { least: None };
    check_all(wanted, given, &mut found);
    found.least
}
