//! The rule on names of a head that are repeated or global.

ghost use Rattle.std.specs.Prelude.{◌≡◌, [], map, OnOk};
ghost use Rattle.std.specs.Map.{lookup};
ghost use Rattle.std.specs.Str.{bytes_eq};
ghost use Rattle.vlt_kinds_types.specs.Names.Globals.{names_seen};
ghost use Rattle.vlt_kinds_types.specs.Names.Refusals.{least_from};
ghost use Rattle.vlt_kinds_types.specs.Names.Along.{found_along};
ghost use Rattle.vlt_kinds_heads.specs.Heads as h;
ghost use Rattle.vlt_kinds_heads.specs.Seen.{name_seen, table_seen};

use crate::names::HeadName;
use indexmap::IndexMap;
use std::alloc::{AllocError, Global};
use vlt_core::rules;
use vlt_kinds_types::{Globals, LeastRefusal};

/// The names so far, each with whether it stands for keys alone.
#[derive(Drop)]
pub struct Names<'a> {
    seen: IndexMap<&'a [u8], bool>,
}

impl<'a> Names<'a> {
    pub fn new(alloc: Global) -> Names<'a> {
        Names {
            seen: IndexMap::new(alloc),
        }
    }

    fn clear(&mut self)
        ensures { table_seen self.new.seen.entries ≡ [] }
    {
        self.seen.clear();
    }

    fn find(&self, name: &[u8]) -> Option<bool>
        ensures { result ≡ lookup (bytes_eq name.now) (table_seen self.now.seen.entries) }
    {
        self.seen.get(&name).copied()
    }

    fn only_keys(&self, name: &HeadName<'_>) -> bool
        ensures { result ≡ h.only_keys (table_seen self.now.seen.entries) (name_seen name.now) }
    {
        self.find(name.text).unwrap_or(true) && name.is_key
    }

    fn is_repeated(&self, name: &HeadName<'_>) -> bool
        ensures { result ≡ h.is_repeated (table_seen self.now.seen.entries) (name_seen name.now) }
    {
        self.find(name.text).is_some() && !self.only_keys(name)
    }

    fn add(&mut self, name: &HeadName<'a>) -> Result<(), AllocError>
        ensures { OnOk result (table_seen self.new.seen.entries
            ≡ h.with_name (table_seen self.old.seen.entries) (name_seen name.now)) }
    {
        let only_keys = self.only_keys(name);
        self.seen.insert(name.text, only_keys)?;
        Ok(())
    }

    #[tactic(auto, unfolding(crate::specs::Heads::name_refused))]
    fn check(&self, known: &Globals<'_>, name: &HeadName<'_>, found: &mut LeastRefusal)
        ensures { found.new.least ≡ least_from found.old.least
            (h.name_refused (names_seen known.now) (table_seen self.now.seen.entries)
            (name_seen name.now)) }
    {
        let broken = self.is_repeated(name) || known.has(name.text);
        found.add_if(broken, rules::HEAD_NAME, name.at);
    }
}

/// Refuses each name that is repeated or global. The names of other heads are forgotten.
pub fn check_names<'a>(
    known: &Globals<'_>,
    names: &[HeadName<'a>],
    seen: &mut Names<'a>,
    found: &mut LeastRefusal,
) -> Result<(), AllocError>
    ensures { OnOk result (found.new.least ≡ found_along h.with_name
        (h.name_refused (names_seen known.now)) [] (map name_seen names.now) found.old.least) }
{
    seen.clear();
    for name in names {
        seen.check(known, name, found);
        seen.add(name)?;
    }
    Ok(())
}
