//! The rules on declared names.

ghost use Rattle.std.specs.Prelude.{◌≡◌, ◌<◌, ◌^◌, ◌-◌, map, option_map, length, IfOk, OnOk};
ghost use Rattle.std.specs.Char.{is_ascii};
ghost use Rattle.std.specs.List.{list_any, list_all};
ghost use Rattle.vlt_syntax.specs.Tree as s;
ghost use Rattle.vlt_syntax.specs.View as view;
ghost use Rattle.vlt_kinds_types.specs.Names.Refusals.{least_from, found_each, refuse};
ghost use Rattle.vlt_kinds_decls.specs.Names as n;
ghost use Rattle.vlt_kinds_types.specs.Names.Globals.{globals_of, names_seen};

use std::alloc::{AllocError, Global};
use vlt_core::rules;
use vlt_kinds_types::{Entity, Globals, LeastRefusal, known_names};
use vlt_syntax::{Case, Decl, Field, Head, HeaderKey, Name, SetState};

/// The name of the function that a program begins with.
const MAIN: &[u8] = b"main";

/// What has a name.
pub trait HasName {
    ghost name: { Self → s.Name };

    fn name(&self) -> &Name
        ensures { view.name_of result.now ≡ name self.now };
}

impl HasName for Name {
    ghost name = { view.name_of };

    fn name(&self) -> &Name {
        self
    }
}

impl HasName for SetState {
    ghost name = { λ x. (view.set_state_of x).name };

    fn name(&self) -> &Name {
        &self.name
    }
}

impl HasName for Field {
    ghost name = { λ f. (view.field_of f).name };

    fn name(&self) -> &Name {
        &self.name
    }
}

impl HasName for Case {
    ghost name = { λ c. (view.case_of c).name };

    fn name(&self) -> &Name {
        &self.name
    }
}

impl HasName for HeaderKey {
    ghost name = { λ p. (view.header_key_of p).key };

    fn name(&self) -> &Name {
        &self.key
    }
}

fn is_named_one<T: HasName>(name: &Name, others: &[T]) -> bool
    ensures { result ≡ list_any (n.has_text (view.name_of name.now)) (map T.name others.now) }
{
    for other in others {
        if name.text.as_slice() == other.name().text.as_slice() {
            return true;
        }
    }
    false
}

/// Refuses each name that stands here for another time. The lists that come here are bounded by limits of the grammar.
#[tactic(auto, unfolding(crate::specs::Names::repeated_names))]
pub fn refuse_repeated<T: HasName>(rule: u8, named: &[T], found: &mut LeastRefusal)
    ensures { found.new.least ≡ least_from found.old.least
        (refuse rule (n.repeated_names (map T.name named.now))) }
{
    for (i, one) in named.iter().enumerate() {
        let name = one.name();
        if is_named_one(name, &named[..i]) {
            found.add(rule, name.at.from);
        }
    }
}

/// Whether a state is a chain by itself, where these states stand after it.
fn is_alone(state: &SetState, further: &[SetState]) -> bool
    ensures { result ≡ n.is_alone (view.set_state_of state.now)
        (map view.set_state_of further.now) }
{
    match further {
        [] => !state.above,
        [next, ..] => !state.above && !next.above,
    }
}

#[tactic(auto, unfolding(crate::specs::Names::repeated_states))]
fn check_states(states: &[SetState], found: &mut LeastRefusal)
    ensures { found.new.least ≡ least_from found.old.least
        (n.repeated_states (map view.set_state_of states.now)) }
{
    for (i, state) in states.iter().enumerate() {
        if is_alone(state, &states[i + 1..]) && is_named_one(&state.name, &states[..i]) {
            found.add(rules::REPEATED_PART, state.name.at.from);
        }
    }
}

#[tactic(auto, unfolding(crate::specs::Names::header_keys_taken))]
fn check_taken(params: &[HeaderKey], known: &Globals<'_>, found: &mut LeastRefusal)
    ensures { found.new.least ≡ least_from found.old.least
        (n.header_keys_taken (names_seen known.now)
        (map (λ p. (view.header_key_of p).key) params.now)) }
{
    for param in params {
        if known.has(param.key.text.as_slice()) {
            found.add(rules::HEADER_KEY_TAKEN, param.key.at.from);
        }
    }
}

#[tactic(auto, using(vlt_kinds_types::proofs::OfNames::Least::least_of_both, vlt_kinds_types::proofs::OfNames::Least::mapped_twice), unfolding(crate::specs::Names::header_refused))]
fn check_header(params: &[HeaderKey], known: &Globals<'_>, found: &mut LeastRefusal)
    ensures { found.new.least ≡ least_from found.old.least
        (n.header_refused (names_seen known.now) (map view.header_key_of params.now)) }
{
    refuse_repeated(rules::REPEATED_PART, params, found);
    check_taken(params, known, found);
}

#[tactic(auto, unfolding(crate::specs::Names::set_refused))]
fn check_set(set: &Option<Name>, known: &Globals<'_>, found: &mut LeastRefusal)
    ensures { found.new.least ≡ least_from found.old.least
        (n.set_refused (names_seen known.now) (option_map view.name_of set.now)) }
{
    if let Some(name) = set {
        match known.find(name.text.as_slice()) {
            Some(Entity::ASet(_)) => {}
            _ => found.add(rules::NOT_A_SET, name.at.from),
        }
    }
}

fn is_all_ascii(text: &[u8]) -> bool
    ensures { result ≡ list_all is_ascii text.now }
{
    for byte in text {
        if *byte >= 128 {
            return false;
        }
    }
    true
}

#[tactic(auto, using(vlt_kinds_types::proofs::OfNames::Least::least_of_both, vlt_kinds_types::proofs::OfNames::Least::mapped_twice), unfolding(crate::specs::Names::struct_refused))]
fn check_struct(
    params: &[HeaderKey],
    set: &Option<Name>,
    fields: &[Field],
    known: &Globals<'_>,
    found: &mut LeastRefusal,
)
    ensures { found.new.least ≡ least_from found.old.least
        (n.struct_refused (names_seen known.now) (map view.header_key_of params.now)
        (option_map view.name_of set.now) (map view.field_of fields.now)) }
{
    check_header(params, known, found);
    check_set(set, known, found);
    refuse_repeated(rules::REPEATED_PART, fields, found);
}

#[tactic(auto, using(vlt_kinds_types::proofs::OfNames::Least::least_of_both, vlt_kinds_types::proofs::OfNames::Least::mapped_twice), unfolding(crate::specs::Names::variant_refused))]
fn check_variant(
    params: &[HeaderKey],
    cases: &[Case],
    known: &Globals<'_>,
    found: &mut LeastRefusal,
)
    ensures { found.new.least ≡ least_from found.old.least
        (n.variant_refused (names_seen known.now) (map view.header_key_of params.now)
        (map view.case_of cases.now)) }
{
    check_header(params, known, found);
    refuse_repeated(rules::REPEATED_PART, cases, found);
}

#[tactic(auto, unfolding(crate::specs::Names::name_beyond_ascii))]
fn check_extern(head: &Head, found: &mut LeastRefusal)
    ensures { found.new.least ≡ least_from found.old.least
        (n.name_beyond_ascii (view.head_of head.now)) }
{
    if !is_all_ascii(head.name.text.as_slice()) {
        found.add(rules::EXTERN_NOT_ASCII, head.name.at.from);
    }
}

fn check_decl(decl: &Decl, known: &Globals<'_>, found: &mut LeastRefusal)
    ensures { found.new.least ≡ least_from found.old.least
        (n.decl_refused (names_seen known.now) (view.decl_of decl.now)) }
{
    match decl {
        Decl::StateSet { states, .. } => check_states(states.as_slice(), found),
        Decl::Abstract { states, .. } => check_set(states, known, found),
        Decl::Struct {
            params,
            states,
            fields,
            ..
        } => { check_struct(params.as_slice(), states, fields.as_slice(), known, found) }
        Decl::Variant { params, cases, .. } => {
            check_variant(params.as_slice(), cases.as_slice(), known, found)
        }
        Decl::Extern { head, .. } => check_extern(head, found),
        Decl::Function { .. } => {}
    }
}

/// Whether some function with a body is named `main`.
pub fn has_main(decls: &[Decl]) -> bool
    ensures { result ≡ list_any n.is_main (map view.decl_of decls.now) }
{
    for decl in decls {
        if let Decl::Function { head, .. } = decl {
            if head.name.text.as_slice() == MAIN {
                return true;
            }
        }
    }
    false
}

#[tactic(auto, unfolding(crate::specs::Names::no_main))]
fn check_main(decls: &[Decl], found: &mut LeastRefusal)
    ensures { found.new.least ≡ least_from found.old.least
        (n.no_main (map view.decl_of decls.now)) }
{
    if !has_main(decls) {
        found.add(rules::NO_MAIN, 0);
    }
}

fn check_decls(decls: &[Decl], known: &Globals<'_>, found: &mut LeastRefusal)
    ensures { found.new.least
        ≡ found_each (n.decl_refused (names_seen known.now))
        (map view.decl_of decls.now) found.old.least }
{
    for decl in decls {
        check_decl(decl, known, found);
    }
}

/// The names of a file. What the rules on declared names refuse is noted, but for the one on `main`.
#[tactic(auto, using(vlt_kinds_types::proofs::OfNames::Least::least_of_both, vlt_kinds_types::proofs::OfNames::Least::each_is))]
pub fn check_other_names<'a>(
    alloc: Global,
    decls: &'a [Decl],
    found: &mut LeastRefusal,
) -> Result<Globals<'a>, AllocError>
    requires { length decls.now < 2 ^ 32 - 1 }
    ensures names { IfOk result (λ g. names_seen g ≡ globals_of (map view.decl_of decls.now)) }
    ensures refused { OnOk result
        (found.new.least
        ≡ least_from found.old.least (n.other_names_refused (map view.decl_of decls.now))) }
{
    let known = known_names(alloc, decls, found)?;
    check_decls(decls, &known, found);
    Ok(known)
}

/// The names of a file. What the rules on declared names refuse is noted.
#[tactic(auto, using(vlt_kinds_types::proofs::OfNames::Least::least_of_both), unfolding(crate::specs::Names::names_refused))]
pub fn check_names<'a>(
    alloc: Global,
    decls: &'a [Decl],
    found: &mut LeastRefusal,
) -> Result<Globals<'a>, AllocError>
    requires { length decls.now < 2 ^ 32 - 1 }
    ensures names { IfOk result (λ g. names_seen g ≡ globals_of (map view.decl_of decls.now)) }
    ensures refused { OnOk result
        (found.new.least
        ≡ least_from found.old.least (n.names_refused (map view.decl_of decls.now))) }
{
    check_main(decls, found);
    check_other_names(alloc, decls, found)
}
