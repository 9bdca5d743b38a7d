//! References in scope, in runs of core programs: nothing goes in and nothing comes out.
//! Read `specs/Naming/Naming.antt` first, then `specs/Naming/Laws.antt`.
//! Used by: `c_lower_runs::programs_are_lowered_rightly`.

ghost use Rattle.c_lower_worlds.specs.Naming.Laws.{NamesAreKept};

/// Where no rule on names and types is broken, each reference in scope stays one to the object that its key names: keys that
/// were bound name what they named, and a function gives back what the keys of its head named.
pub fn references_are_what_their_keys_name()
    ensures { NamesAreKept }
{}
