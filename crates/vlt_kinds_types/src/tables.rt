//! How the file's table is made, and what it knows.

ghost use Rattle.std.specs.Prelude.{◌≡◌, ◌≤◌, ◌++◌, map, option_map, length, IfOk, OnOk};
ghost use Rattle.std.specs.List.{list_any};
ghost use Rattle.std.specs.Str.{bytes_eq};
ghost use Rattle.vlt_syntax.specs.View as view;
ghost use Rattle.vlt_syntax.specs.Lists.{Each};
ghost use Rattle.vlt_syntax.specs.Grammar.{IsDecl, language};
ghost use Rattle.vlt_core.specs.View as core_view;
ghost use Rattle.vlt_kinds_types.specs.Names.Globals.{names_seen, globals_of};
ghost use Rattle.vlt_kinds_types.specs.Names.Refusals.{of_each};
ghost use Rattle.vlt_kinds_types.specs.Files as f;
ghost use Rattle.vlt_kinds_types.specs.Seen.{file_seen};
ghost use Rattle.vlt_kinds_queries.specs.Small.{IsSmall, AreSmallSets, IsSmallSet};

use crate::file::File;
use crate::listed::position_of;
use crate::names::Globals;
use crate::shapes::{self, Shape};
use std::alloc::{AllocError, Global};
use vlt_base::Items;
use vlt_core::{Link, SetDecl};
use vlt_syntax::{Decl, Name, SetState};

impl File<'_> {
    /// The number of the type of this name.
    pub fn type_named(&self, name: &Name) -> Option<u32>
        ensures { result ≡ f.type_named (file_seen self.now) (view.name_of name.now) }
    {
        shapes::type_in(&self.globals, name)
    }

    /// The shape of the type of this number.
    #[tactic(auto, unfolding(crate::specs::Files::shape_at))]
    pub fn shape_at(&self, number: u32) -> Option<&Shape>
        ensures { option_map (λ s. s.now) result ≡ f.shape_at (file_seen self.now) number }
    {
        self.shapes.get(number as usize)
    }

    /// The shape of the type of this name.
    #[tactic(auto, unfolding(crate::specs::Files::shape_named))]
    pub fn shape_named(&self, name: &Name) -> Option<&Shape>
        ensures { option_map (λ s. s.now) result
            ≡ f.shape_named (file_seen self.now) (view.name_of name.now) }
    {
        let number = self.type_named(name)?;
        self.shape_at(number)
    }
}

/// Whether one of the texts is that of the name.
fn has_text(texts: &[Items<u8>], name: &Name) -> bool
    ensures { result ≡ list_any (bytes_eq (view.name_of name.now).text)
        (map (λ n. n) texts.now) }
{
    for text in texts {
        if name.text.as_slice() == text.as_slice() {
            return true;
        }
    }
    false
}

/// The names of the states that a set is declared with, in the order of their first places.
fn state_texts(alloc: Global, states: &[SetState]) -> Result<Items<Items<u8>>, AllocError>
    requires some { 1 ≤ length states.now }
    requires few { length states.now ≤ 32 }
    ensures texts { IfOk result (λ texts. map (λ n. n) texts
        ≡ f.state_texts (map view.set_state_of states.now)) }
    ensures small { IfOk result IsSmall }
{
    let mut texts = Items::new(alloc);
    for state in states {
        if !has_text(texts.as_slice(), &state.name) {
            texts.push(Items::from_slice(alloc, state.name.text.as_slice())?)?;
        }
    }
    Ok(texts)
}

/// The number of a state that has one of these names.
fn number_of(texts: &[Items<u8>], name: &Name) -> u8
    requires { length texts.now ≤ 32 }
    ensures { result ≡ f.number_of (map (λ n. n) texts.now) (view.name_of name.now) }
{
    position_of(texts, name).unwrap_or(0)
}

/// Adds a link between two states, if the second one stands above the first.
fn add_link(links: &mut Items<Link>, lower: u8, upper: u8, above: bool) -> Result<(), AllocError>
    ensures { OnOk result (map core_view.link_of links.new
        ≡ map core_view.link_of links.old ++ f.links_to lower upper above) }
{
    if above {
        links.push(Link { lower, upper })?;
    }
    Ok(())
}

fn links_between(
    alloc: Global,
    texts: &[Items<u8>],
    states: &[SetState],
) -> Result<Items<Link>, AllocError>
    requires { length texts.now ≤ 32 }
    ensures { IfOk result (λ links. map core_view.link_of links
        ≡ f.links_after (map (λ n. n) texts.now) 0 (map view.set_state_of states.now)) }
{
    let mut links = Items::new(alloc);
    let mut lower = 0;
    for state in states {
        let upper = number_of(texts, &state.name);
        add_link(&mut links, lower, upper, state.above)?;
        lower = upper;
    }
    Ok(links)
}

/// The links of a set that is declared with these states.
pub fn links_of(alloc: Global, states: &[SetState]) -> Result<Items<Link>, AllocError>
    requires some { 1 ≤ length states.now }
    requires few { length states.now ≤ 32 }
    ensures { IfOk result (λ links. map core_view.link_of links
        ≡ f.links_of (map view.set_state_of states.now)) }
{
    let texts = state_texts(alloc, states)?;
    links_between(alloc, texts.as_slice(), states)
}

fn set_of(alloc: Global, name: &Name, states: &[SetState]) -> Result<SetDecl, AllocError>
    requires some { 1 ≤ length states.now }
    requires few { length states.now ≤ 32 }
    ensures set { IfOk result (λ set. core_view.set_of set
        ≡ record {
          name = (view.name_of name.now).text;
          states = f.state_texts
              (map view.set_state_of states.now);
          links = f.links_of
              (map view.set_state_of states.now);
        }) }
    ensures small { IfOk result IsSmallSet }
{
    let texts = state_texts(alloc, states)?;
    let links = links_between(alloc, texts.as_slice(), states)?;
    let name = Items::from_slice(alloc, name.text.as_slice())?;
    Ok(SetDecl {
        name,
        states: texts,
        links,
    })
}

fn add_set(alloc: Global, decl: &Decl, sets: &mut Items<SetDecl>) -> Result<(), AllocError>
    requires right { IsDecl language (view.decl_of decl.now) }
    requires small { AreSmallSets sets.old }
    ensures sets { OnOk result
        (map core_view.set_of sets.new
        ≡ map core_view.set_of sets.old ++ f.sets_in (view.decl_of decl.now)) }
    ensures small { OnOk result (AreSmallSets sets.new) }
{
    if let Decl::StateSet { name, states, .. } = decl {
        let set = set_of(alloc, name, states.as_slice())?;
        sets.push(set)?;
    }
    Ok(())
}

fn sets_of(alloc: Global, decls: &[Decl]) -> Result<Items<SetDecl>, AllocError>
    requires { Each (IsDecl language) (map view.decl_of decls.now) }
    ensures sets { IfOk result (λ sets. map core_view.set_of sets
        ≡ of_each f.sets_in (map view.decl_of decls.now)) }
    ensures small { IfOk result AreSmallSets }
{
    let mut sets = Items::new(alloc);
    for decl in decls {
        add_set(alloc, decl, &mut sets)?;
    }
    Ok(sets)
}

/// What a file declares that has these names.
pub fn file_of<'a>(
    alloc: Global,
    globals: Globals<'a>,
    decls: &[Decl],
) -> Result<File<'a>, AllocError>
    requires language { Each (IsDecl language) (map view.decl_of decls.now) }
    requires names { names_seen globals ≡ globals_of (map view.decl_of decls.now) }
    ensures { IfOk result (λ file. file_seen file ≡ f.file_of (map view.decl_of decls.now)) }
{
    let sets = sets_of(alloc, decls)?;
    let shapes = shapes::shapes_of(alloc, &globals, decls)?;
    Ok(File {
        globals,
        sets,
        shapes,
    })
}
