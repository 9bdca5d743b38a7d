//! The table of what modules give.

ghost use Rattle.std.specs.Prelude.{◌≡◌, ◌++◌, ◌∷◌, [], List, ℕ, map, option_map, IfOk, OnOk};
ghost use Rattle.std.specs.Str.{bytes_eq};
ghost use Rattle.vlt_syntax.specs.View.{decl_of};
ghost use Rattle.vlt_iface.specs.Seen.{decls_seen, decl_seen};
ghost use Rattle.vlt_iface.specs.Given as g;

use crate::keys::{Key, given_key, wanted_key};
use indexmap::IndexMap;
use std::alloc::{AllocError, Global};
use vlt_base::Items;
use vlt_syntax::Decl;

/// The declarations of one module or two in order, and the first struct and the first function with a body of each name.
#[derive(Drop)]
pub struct Given<'a> {
    pub all: Items<&'a Decl>,
    pub structs: IndexMap<&'a [u8], &'a Decl>,
    pub functions: IndexMap<&'a [u8], &'a Decl>,
}

fn entry<'a>(table: &IndexMap<&'a [u8], &'a Decl>, name: &[u8]) -> Option<&'a Decl>
    ensures { option_map decl_seen result ≡ g.entry_in table.now.entries name.now }
{
    table.get(&name).copied()
}

fn put_entry<'a>(
    table: &mut IndexMap<&'a [u8], &'a Decl>,
    name: &'a [u8],
    decl: &'a Decl,
) -> Result<(), AllocError>
    ensures { OnOk result ((n : List ℕ) → g.entry_in table.new.entries n ≡ g.first_of
        (g.when (bytes_eq n name.now) (decl_of decl.now)) (g.entry_in table.old.entries n)) }
{
    table.insert(name, decl)?;
    Ok(())
}

/// Adds a declaration, if there is none of its name.
fn add_entry<'a>(
    table: &mut IndexMap<&'a [u8], &'a Decl>,
    name: &'a [u8],
    decl: &'a Decl,
) -> Result<(), AllocError>
    ensures { OnOk result ((n : List ℕ) → g.entry_in table.new.entries n ≡ g.first_of
        (g.entry_in table.old.entries n) (g.when (bytes_eq n name.now) (decl_of decl.now))) }
{
    match entry(table, name) {
        Some(_) => Ok(()),
        None => put_entry(table, name, decl),
    }
}

impl<'a> Given<'a> {
    #[tactic(auto, using(crate::proofs::Tables::none_given))]
    fn new(alloc: Global) -> Given<'a>
        ensures all { decls_seen result.all ≡ [] }
        ensures givers { g.HasGivers result }
    {
        Given {
            all: Items::new(alloc),
            structs: IndexMap::new(alloc),
            functions: IndexMap::new(alloc),
        }
    }

    /// Notes what the declaration gives, where nothing before gives that.
    fn note(&mut self, decl: &'a Decl) -> Result<(), AllocError>
        ensures all { self.new.all ≡ self.old.all }
        ensures givers { OnOk result ((k : g.Key) → g.giver_in self.new k ≡ g.first_of
            (g.giver_in self.old k)
            (g.when (g.same_key k (g.given_key (decl_of decl.now))) (decl_of decl.now))) }
    {
        match given_key(decl) {
            Key::Struct(name) => add_entry(&mut self.structs, name, decl),
            Key::Function(name) => add_entry(&mut self.functions, name, decl),
            Key::Nothing => Ok(()),
        }
    }

    fn add(&mut self, decl: &'a Decl) -> Result<(), AllocError>
        requires { g.HasGivers self.old }
        ensures all { OnOk result (decls_seen self.new.all
            ≡ decls_seen self.old.all ++ decl_of decl.now ∷ []) }
        ensures givers { OnOk result (g.HasGivers self.new) }
    {
        self.note(decl)?;
        self.all.push(decl)?;
        Ok(())
    }

    /// The first declaration that gives the interface's.
    pub fn giver(&self, wanted: &Decl) -> Option<&'a Decl>
        ensures { option_map decl_seen result ≡ g.giver_of self.now (decl_of wanted.now) }
    {
        match wanted_key(wanted) {
            Key::Struct(name) => entry(&self.structs, name),
            Key::Function(name) => entry(&self.functions, name),
            Key::Nothing => None,
        }
    }
}

fn add_all<'a>(given: &mut Given<'a>, decls: &'a [Decl]) -> Result<(), AllocError>
    requires { g.HasGivers given.old }
    ensures all { OnOk result (decls_seen given.new.all
        ≡ decls_seen given.old.all ++ map decl_of decls.now) }
    ensures givers { OnOk result (g.HasGivers given.new) }
{
    for decl in decls {
        given.add(decl)?;
    }
    Ok(())
}

/// What two modules give, the declarations of the first before those of the second.
pub fn given_by<'a>(
    alloc: Global,
    first: &'a [Decl],
    second: &'a [Decl],
) -> Result<Given<'a>, AllocError>
    ensures all { IfOk result (λ given. decls_seen given.all
        ≡ map decl_of first.now ++ map decl_of second.now) }
    ensures givers { IfOk result g.HasGivers }
{
    let mut given = Given::new(alloc);
    add_all(&mut given, first)?;
    add_all(&mut given, second)?;
    Ok(given)
}
