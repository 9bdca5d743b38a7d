//! The rules on the types of a head's keys.

ghost use Rattle.std.specs.Prelude.{◌≡◌, map, OnOk};
ghost use Rattle.vlt_syntax.specs.View as view;
ghost use Rattle.vlt_kinds_types.specs.Names.Refusals.{least_from, found_each};
ghost use Rattle.vlt_kinds_types.specs.Seen.{use_seen};
ghost use Rattle.vlt_kinds_types.specs.Names.Along.{found_along};
ghost use Rattle.vlt_kinds_heads.specs.Keys as k;
ghost use Rattle.vlt_kinds_heads.specs.Heads as h;
ghost use Rattle.vlt_kinds_heads.specs.Seen.{keys_seen};

use crate::facts::{Facts, Typing};
use crate::keys::HeadKeys;
use crate::places::entry_key;
use std::alloc::AllocError;
use vlt_core::rules;
use vlt_kinds_types::{KeyUse, LeastRefusal, Wanted};
use vlt_syntax::Entry;

fn type_rule(is_tracked: bool) -> u8
    ensures { result ≡ h.type_rule is_tracked }
{
    if is_tracked {
        rules::TWO_KEY_TYPES
    } else {
        rules::KEY_ARGUMENT
    }
}

fn check_clash_with(
    had: Option<Typing>,
    wanted: Wanted,
    is_tracked: bool,
    at: u32,
    found: &mut LeastRefusal,
)
    ensures { found.new.least ≡ least_from found.old.least
        (h.clash_with had wanted is_tracked at) }
{
    if let (Some(had), Wanted::OfType(type_id)) = (had, wanted) {
        found.add_if(had.type_id != type_id, type_rule(is_tracked), at);
    }
}

fn is_bound(facts: &Facts) -> bool
    ensures { result ≡ h.is_bound facts.now }
{
    (facts.in_parameters || facts.is_fresh) && !facts.is_left_open
}

fn result_place(had: Typing, is_tracked: bool, at: u32) -> u32
    ensures { result ≡ h.result_place had is_tracked at }
{
    if is_tracked { had.at } else { at }
}

fn check_result_clash_with(
    facts: &Facts,
    wanted: Wanted,
    is_tracked: bool,
    at: u32,
    found: &mut LeastRefusal,
)
    ensures { found.new.least ≡ least_from found.old.least
        (h.result_clash_with facts.now facts.now.typing wanted is_tracked at) }
{
    let Wanted::OfType(type_id) = wanted else {
        return;
    };
    match facts.typing {
        None => found.add_if(is_bound(facts), rules::KEY_ARGUMENT, at),
        Some(had) => {
            let place = result_place(had, is_tracked, at);
            found.add_if(had.type_id != type_id, type_rule(is_tracked), place);
        }
    }
}

impl<'a> HeadKeys<'a> {
    #[tactic(auto, unfolding(crate::specs::Heads::clash))]
    fn check_clash(&self, place: &KeyUse<'_>, found: &mut LeastRefusal) -> Result<(), AllocError>
        ensures { OnOk result (found.new.least ≡ least_from found.old.least
            (h.clash (keys_seen self.now) (use_seen place.now))) }
    {
        let facts = self.facts_of(place.key)?;
        check_clash_with(facts.typing, place.wanted, place.tracked, place.at, found);
        Ok(())
    }

    /// Notes the types that the parameters give to keys, and refuses each other type for one of them.
    pub fn check_parameters(
        &mut self,
        uses: &[KeyUse<'a>],
        found: &mut LeastRefusal,
    ) -> Result<(), AllocError>
        ensures keys { OnOk result (keys_seen self.new
            ≡ k.parameters_typed (keys_seen self.old) (map use_seen uses.now)) }
        ensures refused { OnOk result (found.new.least
            ≡ found_along k.after_use h.clash (keys_seen self.old)
            (map use_seen uses.now) found.old.least) }
    {
        for place in uses {
            self.check_clash(place, found)?;
            self.note_typing(place)?;
        }
        Ok(())
    }

    #[tactic(auto, unfolding(crate::specs::Heads::result_clash))]
    fn check_result_clash(
        &self,
        place: &KeyUse<'_>,
        found: &mut LeastRefusal,
    ) -> Result<(), AllocError>
        ensures { OnOk result (found.new.least ≡ least_from found.old.least
            (h.result_clash (keys_seen self.now) (use_seen place.now))) }
    {
        let facts = self.facts_of(place.key)?;
        check_result_clash_with(&facts, place.wanted, place.tracked, place.at, found);
        Ok(())
    }

    /// Refuses types in the result that its keys don't have.
    pub fn check_result_clashes(
        &self,
        uses: &[KeyUse<'_>],
        found: &mut LeastRefusal,
    ) -> Result<(), AllocError>
        ensures { OnOk result (found.new.least
            ≡ found_each (h.result_clash (keys_seen self.now))
            (map use_seen uses.now) found.old.least) }
    {
        for place in uses {
            self.check_result_clash(place, found)?;
        }
        Ok(())
    }

    #[tactic(auto, unfolding(crate::specs::Heads::result_key_refused))]
    fn check_result_key(
        &self,
        place: &KeyUse<'_>,
        found: &mut LeastRefusal,
    ) -> Result<(), AllocError>
        ensures { OnOk result (found.new.least ≡ least_from found.old.least
            (h.result_key_refused (keys_seen self.now) (use_seen place.now))) }
    {
        let facts = self.facts_of(place.key)?;
        let broken = !(facts.is_fresh || facts.in_parameters);
        found.add_if(broken, rules::RESULT_KEY, place.at);
        Ok(())
    }

    /// Refuses keys of the result that are neither `new` nor in a parameter.
    pub fn check_result_keys(
        &self,
        uses: &[KeyUse<'_>],
        found: &mut LeastRefusal,
    ) -> Result<(), AllocError>
        ensures { OnOk result (found.new.least
            ≡ found_each (h.result_key_refused (keys_seen self.now))
            (map use_seen uses.now) found.old.least) }
    {
        for place in uses {
            self.check_result_key(place, found)?;
        }
        Ok(())
    }

    #[tactic(auto, unfolding(crate::specs::Heads::again_refused))]
    fn check_again(&self, entry: &Entry, found: &mut LeastRefusal) -> Result<(), AllocError>
        ensures { OnOk result (found.new.least ≡ least_from found.old.least
            (h.again_refused (keys_seen self.now) (view.entry_of entry.now))) }
    {
        let key = entry_key(entry);
        let facts = self.facts_of(key.text.as_slice())?;
        found.add_if(facts.in_clause, rules::CLAUSE_KEY_AGAIN, key.at.from);
        Ok(())
    }

    /// Notes the keys of a clause, and refuses each that it names another time.
    pub fn check_clause_again(
        &mut self,
        clause: &'a [Entry],
        found: &mut LeastRefusal,
    ) -> Result<(), AllocError>
        ensures keys { OnOk result
            (keys_seen self.new
            ≡ k.following_clause (keys_seen self.old) (map view.entry_of clause.now)) }
        ensures refused { OnOk result (found.new.least
            ≡ found_along k.following_entry h.again_refused (keys_seen self.old)
            (map view.entry_of clause.now) found.old.least) }
    {
        for entry in clause {
            self.check_again(entry, found)?;
            self.note_entry(entry)?;
        }
        Ok(())
    }
}
