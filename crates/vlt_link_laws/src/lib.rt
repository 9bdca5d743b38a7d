//! Laws of joined modules: nothing goes in and nothing comes out.
//! Read `specs/Link.antt` first; `vlt_views/specs` has the kinds and the program of a view.
//! Used by: verdicts on views, and the commands for modules. What is accepted in both views is accepted in the joined program.
//! Its parts: `core_moves` is about declarations that get other numbers, `moves` about files that know more names.
#![tactic(auto)]

ghost use Rattle.vlt_link_laws.specs.Link.{AcceptedViewsLink, JoinedTokensAreThoseOfFiles, TestedViewsLink, ToldJoinsAreTextTrees, ToldViewsAreTrees, ViewProgramsAreJudgeable, ViewProgramsAreKinded};

mod core_moves;
mod moves;

pub use core_moves::{
    droppable_structs_stay_so, moved_bodies_are_accepted, moved_bodies_flow_alike,
    moved_functions_have_the_same_instances, unbroken_functions_know,
};
pub use moves::{exprs_move, operands_move, walks_move};
use vlt_iface::{told_joins_are_joined, told_views_are_few, told_views_are_views};

/// Let the view of an interface with one module pass all rules but the one on `main`, that with another module pass all rules,
/// and both be accepted. Where no names clash and there are no more declarations than a tree may have, the joined tree is one of
/// the language that no rule refuses, its elaboration is a program, and the program is accepted.
pub fn accepted_views_link()
    ensures { AcceptedViewsLink }
{}

/// The program of a view breaks none of the core's rules, but perhaps the one on `main` where that wasn't tested.
pub fn view_programs_are_kinded()
    ensures { ViewProgramsAreKinded }
{}

/// Each token that a joined tree is spelled with is one of those that its three files are spelled with.
pub fn joined_tokens_are_those_of_files()
    ensures { JoinedTokensAreThoseOfFiles }
{}

/// The program of a view that is told is one that the check may be asked of, whether the rule on `main` was tested or not.
pub fn view_programs_are_judgeable()
    ensures { ViewProgramsAreJudgeable }
{
    told_views_are_views();
    told_views_are_few();
}

/// The view that is told of an interface with a module, both of the language, is a tree of the language.
pub fn told_views_are_trees()
    ensures { ToldViewsAreTrees }
{
    told_views_are_views();
    told_views_are_few();
}

/// The joined tree that is told of an interface with two modules, all as texts have them, is a tree as texts have them.
pub fn told_joins_are_text_trees()
    ensures { ToldJoinsAreTextTrees }
{
    told_joins_are_joined();
}

/// Where the views that are told of an interface with two modules pass all rules, the second with a main, and both are accepted,
/// the joined tree that is told is accepted.
pub fn tested_views_link()
    ensures { TestedViewsLink }
{
    told_views_are_views();
    told_joins_are_joined();
}
