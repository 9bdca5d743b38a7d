//! What is known of a head's keys, place by place.

ghost use Rattle.std.specs.Prelude.{◌≡◌, Some, map, IfOk, OnOk};
ghost use Rattle.std.specs.Map.{lookup};
ghost use Rattle.std.specs.Str.{bytes_eq};
ghost use Rattle.vlt_syntax.specs.View as view;
ghost use Rattle.vlt_kinds_types.specs.Seen.{use_seen};
ghost use Rattle.vlt_kinds_heads.specs.Places as p;
ghost use Rattle.vlt_kinds_heads.specs.Keys as k;
ghost use Rattle.vlt_kinds_heads.specs.Seen.{keys_seen};

use crate::facts::{Facts, Typing};
use crate::keys::HeadKeys;
use crate::places::{entry_key, is_fresh};
use std::alloc::AllocError;
use vlt_kinds_types::{KeyUse, Wanted};
use vlt_syntax::Entry;

fn no_facts(number: u32) -> Facts
    ensures { result ≡ k.no_facts number }
{
    Facts {
        number,
        in_result: false,
        in_result_again: false,
        is_result_key: false,
        in_parameters: false,
        is_tracked_parameter: false,
        is_left_open: false,
        in_clause: false,
        in_clause_again: false,
        is_fresh: false,
        typing: None,
    }
}

impl HeadKeys<'_> {
    /// What is known of a key, where it stands in the head.
    pub fn find(&self, key: &[u8]) -> Option<Facts>
        ensures { result ≡ lookup (bytes_eq key.now) (keys_seen self.now) }
    {
        self.table.get(&key).copied()
    }

    /// What is known of a key; of one that stands nowhere yet, that it would be the next.
    pub fn facts_of(&self, key: &[u8]) -> Result<Facts, AllocError>
        ensures { IfOk result (λ facts. facts ≡ k.facts_of (keys_seen self.now) key.now) }
    {
        if let Some(facts) = self.find(key) {
            return Ok(facts);
        }
        let Ok(number) = u32::try_from(self.table.len()) else {
            return Err(AllocError);
        };
        Ok(no_facts(number))
    }
}

impl<'a> HeadKeys<'a> {
    fn insert(&mut self, key: &'a [u8], facts: Facts) -> Result<(), AllocError>
        ensures { OnOk result (keys_seen self.new
            ≡ k.with_facts (keys_seen self.old) key.now facts) }
    {
        self.table.insert(key, facts)?;
        Ok(())
    }

    fn note_result(&mut self, place: &KeyUse<'a>) -> Result<(), AllocError>
        ensures { OnOk result (keys_seen self.new
            ≡ k.note (keys_seen self.old) (use_seen place.now).key
            (k.with_result (use_seen place.now))) }
    {
        let facts = self.facts_of(place.key)?;
        let noted = Facts {
            in_result: true,
            in_result_again: facts.in_result,
            is_result_key: facts.is_result_key || place.tracked,
            ..facts
        };
        self.insert(place.key, noted)
    }

    fn note_parameter(&mut self, place: &KeyUse<'a>) -> Result<(), AllocError>
        ensures { OnOk result (keys_seen self.new
            ≡ k.note (keys_seen self.old) (use_seen place.now).key
            (k.with_parameter (use_seen place.now))) }
    {
        let facts = self.facts_of(place.key)?;
        let noted = Facts {
            in_parameters: true,
            is_tracked_parameter: facts.is_tracked_parameter || place.tracked,
            is_left_open: facts.is_left_open || matches!(place.wanted, Wanted::Unknown),
            ..facts
        };
        self.insert(place.key, noted)
    }

    /// Notes that a clause has a key.
    pub fn note_entry(&mut self, entry: &'a Entry) -> Result<(), AllocError>
        ensures { OnOk result (keys_seen self.new
            ≡ k.following_entry (keys_seen self.old) (view.entry_of entry.now)) }
    {
        let key = entry_key(entry).text.as_slice();
        let facts = self.facts_of(key)?;
        let noted = Facts {
            in_clause: true,
            in_clause_again: facts.in_clause,
            is_fresh: facts.is_fresh || is_fresh(entry),
            ..facts
        };
        self.insert(key, noted)
    }

    /// Notes the type that a place gives to its key, if it gives one.
    pub fn note_typing(&mut self, place: &KeyUse<'a>) -> Result<(), AllocError>
        ensures { OnOk result (keys_seen self.new
            ≡ k.after_use (keys_seen self.old) (use_seen place.now)) }
    {
        let Wanted::OfType(type_id) = place.wanted else {
            return Ok(());
        };
        let facts = self.facts_of(place.key)?;
        let typing = first_typing(facts.typing, type_id, place.at);
        self.insert(
            place.key,
            Facts {
                typing: Some(typing),
                ..facts
            },
        )
    }

    /// Notes the keys of the result.
    pub fn note_results(&mut self, uses: &[KeyUse<'a>]) -> Result<(), AllocError>
        ensures { OnOk result (keys_seen self.new
            ≡ k.following_result (keys_seen self.old) (map use_seen uses.now)) }
    {
        for place in uses {
            self.note_result(place)?;
        }
        Ok(())
    }

    /// Notes the keys of the parameters.
    pub fn note_parameters(&mut self, uses: &[KeyUse<'a>]) -> Result<(), AllocError>
        ensures { OnOk result (keys_seen self.new
            ≡ k.after_parameters (keys_seen self.old) (map use_seen uses.now)) }
    {
        for place in uses {
            self.note_parameter(place)?;
        }
        Ok(())
    }

    fn note_fresh(&mut self, place: &KeyUse<'a>) -> Result<(), AllocError>
        ensures { OnOk result (keys_seen self.new
            ≡ k.after_fresh (keys_seen self.old) (use_seen place.now)) }
    {
        let facts = self.facts_of(place.key)?;
        if place.tracked && facts.is_fresh {
            self.note_typing(place)
        } else {
            Ok(())
        }
    }

    /// Notes the type that the result gives to a `new` key.
    pub fn note_fresh_types(&mut self, uses: &[KeyUse<'a>]) -> Result<(), AllocError>
        ensures { OnOk result (keys_seen self.new
            ≡ k.fresh_typed (keys_seen self.old) (map use_seen uses.now)) }
    {
        for place in uses {
            self.note_fresh(place)?;
        }
        Ok(())
    }
}

fn first_typing(had: Option<Typing>, type_id: u32, at: u32) -> Typing
    ensures { Some result ≡ k.typed_first had type_id at }
{
    match had {
        Some(had) => had,
        None => Typing { type_id, at },
    }
}
