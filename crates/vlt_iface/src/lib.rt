//! Interfaces and modules: definitions and laws of their views, the tables of what modules give, and a view's declarations.
//! Read `specs/View.antt` first, then `Rules`, `Clash` and `Told`.
//! Used by: the calls that make views, the laws on modules, and the commands for modules.
#![tactic(auto)]

mod bound;
mod error;
mod given;
mod keys;
mod laws;
mod places;
pub mod rules;
mod same;
mod view;
mod wanted;

pub use bound::add_bound;
pub use error::IfaceError;
pub use given::{Given, given_by};
pub use laws::{
    empty_modules_change_nothing, least_names_are_least, no_least_of_none, places_of_interfaces,
    places_of_modules, told_joins_are_joined, told_views_are_few, told_views_are_views,
};
pub use places::RAISE;
pub use same::{same_head, same_name_if};
pub use view::{View, make_view, view_decls};
pub use wanted::add_name;
