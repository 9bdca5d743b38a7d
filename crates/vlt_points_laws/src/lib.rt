//! What paths find of a token at each point of a body, and the laws on it: nothing goes in and nothing comes out.
//! Read `specs/Points.antt` first.
//! Used by: `vlt_points`, which lists what is found.
#![tactic(auto)]

ghost use Rattle.std.specs.Prelude.{◌≡◌, List, length};
ghost use Rattle.vlt_core.specs.Core.{Tok, Func, Program};
ghost use Rattle.vlt_core_laws.specs.Sweep.{Many};
ghost use Rattle.vlt_points_laws.specs.Points.{AreFoundIn, places_in};

/// What is found of a token at the points of a body is one list, with a table for each point.
pub fn a_token_has_one_list()
    ensures one { (p : Program) (f : Func) (t : Tok) (ms ns : List Many) →
        AreFoundIn p f t ms → AreFoundIn p f t ns → ms ≡ ns }
    ensures long { (p : Program) (f : Func) (t : Tok) (ms : List Many) →
        AreFoundIn p f t ms → length ms ≡ length (places_in p f) }
{}
