//! The names that a whole file knows.

ghost use Rattle.std.specs.Prelude.{◌≡◌, ◌<◌, ◌^◌, ◌+◌, ◌-◌, false, [], ◌++◌, ◌∷◌, map, length, IfOk, OnOk};
ghost use Rattle.vlt_syntax.specs.Tree as s;
ghost use Rattle.vlt_syntax.specs.View.{name_of, decl_of};
ghost use Rattle.vlt_kinds_types.specs.Names.Refusals.{least_from};
ghost use Rattle.vlt_kinds_types.specs.Names.Globals.{names_seen, global_in, is_global, decl_name, global_of, counts_after, globals_of, counts_seen, names_again};

use crate::names::found::LeastRefusal;
use indexmap::IndexMap;
use std::alloc::{AllocError, Global};
use vlt_core::rules;
use vlt_syntax::{Decl, Name};

/// What a name of the whole file is, numbered among its kind.
#[derive(Clone, Copy)]
pub enum Entity {
    ASet(u32),
    AType(u32),
    AFunction(u32),
}

/// The names of a file, in the order of their declarations.
#[derive(Drop)]
pub struct Globals<'a> {
    pub names: IndexMap<&'a [u8], Entity>,
}

impl<'a> Globals<'a> {
    /// What the name is, where the file knows it.
    pub fn find(&self, name: &[u8]) -> Option<Entity>
        ensures { result ≡ global_in (names_seen self.now) name.now }
    {
        self.names.get(&name).copied()
    }

    pub fn has(&self, name: &[u8]) -> bool
        ensures { result ≡ is_global (names_seen self.now) name.now }
    {
        self.find(name).is_some()
    }

    /// Adds a name that isn't known yet.
    fn add(&mut self, name: &'a [u8], what: Entity) -> Result<(), AllocError>
        requires { is_global (names_seen self.old) name.now ≡ false }
        ensures { OnOk result (names_seen self.new
            ≡ names_seen self.old ++ (name.now, what) ∷ []) }
    {
        self.names.insert(name, what)?;
        Ok(())
    }
}

fn name_of_decl(decl: &Decl) -> &Name
    ensures { name_of result.now ≡ decl_name (decl_of decl.now) }
{
    match decl {
        Decl::StateSet { name, .. } => name,
        Decl::Abstract { name, .. } => name,
        Decl::Struct { name, .. } => name,
        Decl::Variant { name, .. } => name,
        Decl::Extern { head, .. } => &head.name,
        Decl::Function { head, .. } => &head.name,
    }
}

/// How many of each kind are declared before.
#[derive(Clone, Copy)]
struct Counts {
    sets: u32,
    types: u32,
    functions: u32,
}

impl Counts {
    /// What is declared here, and the counts after it.
    fn declare(&mut self, decl: &Decl) -> Entity
        requires { self.old.sets + self.old.types + self.old.functions < 2 ^ 32 - 1 }
        ensures what { result ≡ global_of (counts_seen self.old) (decl_of decl.now) }
        ensures counts { counts_seen self.new
            ≡ counts_after (counts_seen self.old) (decl_of decl.now) }
        ensures sum { self.new.sets + self.new.types + self.new.functions
            ≡ self.old.sets + self.old.types + self.old.functions + 1 }
    {
        match decl {
            Decl::StateSet { .. } => {
                self.sets += 1;
                Entity::ASet(self.sets - 1)
            }
            Decl::Abstract { .. } | Decl::Struct { .. } | Decl::Variant { .. } => {
                self.types += 1;
                Entity::AType(self.types - 1)
            }
            Decl::Extern { .. } | Decl::Function { .. } => {
                self.functions += 1;
                Entity::AFunction(self.functions - 1)
            }
        }
    }
}

/// The names of the whole file. A name that is declared again is refused.
#[tactic(auto, unfolding(crate::specs::Names::Globals::names_again))]
pub fn known_names<'a>(
    alloc: Global,
    decls: &'a [Decl],
    found: &mut LeastRefusal,
) -> Result<Globals<'a>, AllocError>
    requires { length decls.now < 2 ^ 32 - 1 }
    ensures names { IfOk result (λ g. names_seen g ≡ globals_of (map decl_of decls.now)) }
    ensures refused { OnOk result (found.new.least
        ≡ least_from found.old.least (names_again (map decl_of decls.now))) }
{
    let mut known = Globals {
        names: IndexMap::new(alloc),
    };
    let mut counts = Counts {
        sets: 0,
        types: 0,
        functions: 0,
    };
    for decl in decls {
        let name = name_of_decl(decl);
        let what = counts.declare(decl);
        if known.has(name.text.as_slice()) {
            found.add(rules::DECLARED_AGAIN, name.at.from);
        } else {
            known.add(name.text.as_slice(), what)?;
        }
    }
    Ok(known)
}
