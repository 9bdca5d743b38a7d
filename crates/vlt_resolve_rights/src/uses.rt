//! The keys that stand in a type, and the type of a new object by its name.

ghost use Rattle.std.specs.Prelude.{◌≡◌, map, option_map, length};
ghost use Rattle.vlt_syntax.specs.View as tree;
ghost use Rattle.vlt_kinds_types.specs.Names.Refusals.{least_from, found_each};
ghost use Rattle.vlt_kinds_types.specs.Types as t;
ghost use Rattle.vlt_kinds_types.specs.Seen.{use_seen, kinds_seen};
ghost use Rattle.vlt_kinds_types.specs.declared.shapes.Wanted.TheVariants as wanted;
ghost use Rattle.vlt_resolve_exprs.specs.Seen.{scope_seen};
ghost use Rattle.vlt_resolve_rights.specs.News as n;

use vlt_base::TypeId;
use vlt_core::rules::{KEY_ARGUMENT, KEY_COUNT, NOT_A_TYPE, TWO_KEY_TYPES, UNKNOWN_NAME};
use vlt_kinds_types::{KeyUse, Kinds, LeastRefusal, Shape, Wanted};
use vlt_resolve_exprs::Scope;
use vlt_syntax::{Name, Named};

fn check_typed(given: Option<TypeId>, wanted: u32, tracked: bool, at: u32, found: &mut LeastRefusal)
    ensures { found.new.least ≡ least_from found.old.least
        (n.typed_refused (option_map (λ t. t.0) given) wanted tracked at) }
{
    match given {
        None => found.add(KEY_ARGUMENT, at),
        Some(t) => {
            if tracked {
                found.add_if(!(t.0 == wanted), TWO_KEY_TYPES, at);
            } else {
                found.add_if(!(t.0 == wanted), KEY_ARGUMENT, at);
            }
        }
    }
}

fn check_wanted(
    given: Option<TypeId>,
    wanted: Wanted,
    tracked: bool,
    at: u32,
    found: &mut LeastRefusal,
)
    ensures { found.new.least ≡ least_from found.old.least
        (n.wanted_refused (option_map (λ t. t.0) given) wanted tracked at) }
{
    match wanted {
        Wanted::Any => {}
        Wanted::Unknown => {}
        Wanted::OfType(t) => check_typed(given, t, tracked, at, found),
    }
}

#[tactic(auto, unfolding(crate::specs::News::use_refused))]
fn check_use(scope: &Scope<'_>, key: KeyUse<'_>, found: &mut LeastRefusal)
    ensures { found.new.least ≡ least_from found.old.least
        (n.use_refused (scope_seen scope.now) (use_seen key.entry)) }
{
    match scope.key_named(key.key) {
        None => found.add(UNKNOWN_NAME, key.at),
        Some(k) => check_wanted(scope.key_type(k), key.wanted, key.tracked, key.at, found),
    }
}

fn check_each_use(scope: &Scope<'_>, uses: &[KeyUse<'_>], found: &mut LeastRefusal)
    ensures { found.new.least ≡ found_each (n.use_refused (scope_seen scope.now))
        (map use_seen uses.now) found.old.least }
{
    for key in uses {
        check_use(scope, *key, found);
    }
}

/// What is refused in the keys of a type: each has to be in scope, and its object of the type that is wanted there.
#[tactic(auto, using(vlt_kinds_types::proofs::OfNames::Least::each_is), unfolding(crate::specs::News::uses_refused))]
pub fn check_uses(scope: &Scope<'_>, uses: &[KeyUse<'_>], found: &mut LeastRefusal)
    ensures { found.new.least ≡ least_from found.old.least
        (n.uses_refused (scope_seen scope.now) (map use_seen uses.now)) }
{
    check_each_use(scope, uses, found);
}

// ---- the type of a new object

#[tactic(auto, unfolding(vlt_kinds_types::specs::Types::name_refused))]
fn check_name(shape: Option<&Shape>, named: &Named, found: &mut LeastRefusal)
    ensures { found.new.least ≡ least_from found.old.least
        (t.name_refused (option_map (λ s. s.now) shape.entry) (tree.named_of named.now)) }
{
    let at = named.name.at.from;
    match shape {
        None => found.add(NOT_A_TYPE, at),
        Some(shape) => {
            let fits = shape.header.len() == named.keys.len();
            found.add_if(!fits, KEY_COUNT, at);
        }
    }
}

fn key_use(wanted: Wanted, key: &Name) -> KeyUse<'_>
    ensures { use_seen result ≡ t.key_use wanted (tree.name_of key.now) }
{
    KeyUse {
        key: key.text.as_slice(),
        at: key.at.from,
        wanted,
        tracked: false,
    }
}

fn check_open(scope: &Scope<'_>, keys: &[Name], found: &mut LeastRefusal)
    ensures { found.new.least ≡ found_each (n.use_refused (scope_seen scope.now))
        (map (t.key_use wanted.Unknown) (tree.names_of keys.now)) found.old.least }
{
    for key in keys {
        check_use(scope, key_use(Wanted::Unknown, key), found);
    }
}

fn check_arguments(scope: &Scope<'_>, header: &[Wanted], keys: &[Name], found: &mut LeastRefusal)
    requires { length header.now ≡ length keys.now }
    ensures { found.new.least ≡ found_each (n.use_refused (scope_seen scope.now))
        (t.argument_uses header.now (tree.names_of keys.now)) found.old.least }
{
    for (i, key) in keys.iter().enumerate() {
        check_use(scope, key_use(header[i], key), found);
    }
}

fn check_keys(shape: Option<&Shape>, scope: &Scope<'_>, keys: &[Name], found: &mut LeastRefusal)
    ensures { found.new.least ≡ found_each (n.use_refused (scope_seen scope.now))
        (t.header_uses (option_map (λ s. s.now) shape.entry)
        (tree.names_of keys.now)) found.old.least }
{
    match shape {
        None => check_open(scope, keys, found),
        Some(shape) => {
            let header = shape.header.as_slice();
            if header.len() == keys.len() {
                check_arguments(scope, header, keys, found);
            } else {
                check_open(scope, keys, found);
            }
        }
    }
}

/// What is refused at the name of a new object's type, and at the keys after it.
#[tactic(auto, using(vlt_kinds_types::proofs::OfNames::Least::least_of_both, vlt_kinds_types::proofs::OfNames::Least::each_is), unfolding(crate::specs::News::named_refused, crate::specs::News::uses_refused, vlt_kinds_types::specs::Types::named_uses))]
pub fn check_named(kinds: &Kinds<'_>, scope: &Scope<'_>, named: &Named, found: &mut LeastRefusal)
    ensures { found.new.least ≡ least_from found.old.least
        (n.named_refused (kinds_seen kinds.now) (scope_seen scope.now) (tree.named_of named.now)) }
{
    let shape = kinds.file.shape_named(&named.name);
    check_name(shape, named, found);
    check_keys(shape, scope, named.keys.as_slice(), found);
}
