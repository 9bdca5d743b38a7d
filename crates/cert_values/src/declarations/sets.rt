//! Rows of state sets.

ghost use Rattle.std.specs.Prelude.{◌≡◌, map, None, OnOk};
ghost use Rattle.vlt_core.specs.View.{link_of, set_of};
ghost use Rattle.cert_rows.specs.Parts.{list};
ghost use Rattle.cert_rows.specs.Rows as row;
ghost use Rattle.cert_rows.specs.Rows.{row_data, link as link_part};
ghost use Rattle.cert_format.specs.Certificate.{shape};
ghost use Rattle.cert_values.specs.Laid.{laid};
ghost use Rattle.cert_values.specs.Declarations.Names.{HasTextSet, IsNamed};

use crate::CertText;
use crate::declarations::names::{Unwritten, put_name, put_names};
use std::alloc::AllocError;
use vlt_core::{Link, SetDecl};

fn put_link(out: &mut CertText, link: Link) -> Result<(), AllocError>
    ensures { OnOk result (out.new ≡ laid (link_part.data_of (link_of link)) out.old) }
{
    out.begin()?;
    out.number(link.lower as u64)?;
    out.number(link.upper as u64)?;
    out.end()
}

fn put_links(out: &mut CertText, links: &[Link]) -> Result<(), AllocError>
    ensures { OnOk result (out.new
        ≡ laid (list (map link_part.data_of (map link_of links.now))) out.old) }
{
    out.begin()?;
    for link in links {
        put_link(out, *link)?;
    }
    out.end()
}

/// Writes the row of a state set, with its links if it is of version 2.
pub fn put_set(out: &mut CertText, ordered: bool, set: &SetDecl) -> Result<(), Unwritten>
    ensures value { OnOk result (out.new ≡ laid (row_data (shape ordered None)
        (row.states (set_of set.now))) out.old) }
    ensures named { HasTextSet (set_of set.now) → IsNamed result }
{
    out.tag("states")?;
    put_name(out, set.name.as_slice())?;
    put_names(out, set.states.as_slice())?;
    if ordered {
        put_links(out, set.links.as_slice())?;
        out.end()?;
        Ok(())
    } else {
        out.end()?;
        Ok(())
    }
}
