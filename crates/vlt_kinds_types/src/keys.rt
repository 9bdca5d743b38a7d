//! Which keys stand in a type.

ghost use Rattle.std.specs.Prelude.{◌≡◌, ◌++◌, Some, map, length, OnOk};
ghost use Rattle.vlt_syntax.specs.View as view;
ghost use Rattle.vlt_kinds_types.specs.Types as t;
ghost use Rattle.vlt_kinds_types.specs.Files as f;
ghost use Rattle.vlt_kinds_types.specs.declared.shapes.Wanted.TheVariants as wanted;
ghost use Rattle.vlt_kinds_types.specs.Seen.{file_seen, use_seen};

use crate::file::File;
use crate::shapes::{Shape, Wanted};
use crate::uses::KeyUse;
use std::alloc::AllocError;
use vlt_base::Items;
use vlt_syntax::{Name, Named, Ty};

fn key_use(wanted: Wanted, key: &Name) -> KeyUse<'_>
    ensures { use_seen result ≡ t.key_use wanted (view.name_of key.now) }
{
    KeyUse {
        key: key.text.as_slice(),
        at: key.at.from,
        wanted,
        tracked: false,
    }
}

fn add_open<'b>(keys: &'b [Name], uses: &mut Items<KeyUse<'b>>) -> Result<(), AllocError>
    ensures { OnOk result (map use_seen uses.new
        ≡ map use_seen uses.old ++ map (t.key_use wanted.Unknown) (view.names_of keys.now)) }
{
    for key in keys {
        uses.push(key_use(Wanted::Unknown, key))?;
    }
    Ok(())
}

fn add_arguments<'b>(
    header: &[Wanted],
    keys: &'b [Name],
    uses: &mut Items<KeyUse<'b>>,
) -> Result<(), AllocError>
    requires { length header.now ≡ length keys.now }
    ensures { OnOk result (map use_seen uses.new
        ≡ map use_seen uses.old ++ t.argument_uses header.now (view.names_of keys.now)) }
{
    for (i, key) in keys.iter().enumerate() {
        uses.push(key_use(header[i], key))?;
    }
    Ok(())
}

fn add_header<'b>(
    shape: &Shape,
    keys: &'b [Name],
    uses: &mut Items<KeyUse<'b>>,
) -> Result<(), AllocError>
    ensures { OnOk result (map use_seen uses.new
        ≡ map use_seen uses.old ++ t.header_uses (Some shape.now) (view.names_of keys.now)) }
{
    let header = shape.header.as_slice();
    if header.len() == keys.len() {
        add_arguments(header, keys, uses)
    } else {
        add_open(keys, uses)
    }
}

impl File<'_> {
    fn wanted_named(&self, name: &Name) -> Wanted
        ensures { result ≡ f.wanted_type (f.type_named (file_seen self.now)
            (view.name_of name.now)) }
    {
        match self.type_named(name) {
            None => Wanted::Unknown,
            Some(number) => Wanted::OfType(number),
        }
    }

    /// The keys after a type's name.
    #[tactic(auto, unfolding(crate::specs::Types::named_uses))]
    fn add_named<'b>(
        &self,
        named: &'b Named,
        uses: &mut Items<KeyUse<'b>>,
    ) -> Result<(), AllocError>
        ensures { OnOk result (map use_seen uses.new
            ≡ map use_seen uses.old
            ++ t.named_uses (file_seen self.now) (view.named_of named.now)) }
    {
        match self.shape_named(&named.name) {
            None => add_open(named.keys.as_slice(), uses),
            Some(shape) => add_header(shape, named.keys.as_slice(), uses),
        }
    }

    /// Adds the keys in a type, in the order of the text.
    pub fn add_uses<'b>(&self, ty: &'b Ty, uses: &mut Items<KeyUse<'b>>) -> Result<(), AllocError>
        ensures { OnOk result (map use_seen uses.new
            ≡ map use_seen uses.old ++ t.ty_uses (file_seen self.now) (view.ty_of ty.now)) }
    {
        match ty {
            Ty::Int(_) | Ty::Bool(_) => Ok(()),
            Ty::Tracked { key, named, .. } => {
                let wanted = self.wanted_named(&named.name);
                uses.push(KeyUse {
                    key: key.text.as_slice(),
                    at: key.at.from,
                    wanted,
                    tracked: true,
                })?;
                self.add_named(named, uses)
            }
            Ty::Guarded { key, named } => {
                uses.push(key_use(Wanted::Any, key))?;
                self.add_named(named, uses)
            }
            Ty::Owning { named, .. } => self.add_named(named, uses),
            Ty::Plain(named) => self.add_named(named, uses),
        }
    }
}
