//! Lists of things.

ghost use Rattle.std.specs.Prelude.{◌≡◌, ◌++◌, map, OnOk};
ghost use Rattle.vlt_base.specs.Layout.{Layout, written};
ghost use Rattle.vlt_printer.specs.Lists.{each_after, separated_after, listed_after, enclosed_after, braced_after};

use vlt_base::Memory;

/// A thing that is in lists.
pub trait Part: Sized {
    ghost Seen: { Type 0 };

    ghost view: { Self → Seen };

    ghost after: { Seen → Layout };

    /// Writes it after what was written before.
    fn write(&self, out: &mut Vec<u8>) -> Result<(), Memory>
        ensures { OnOk result (out.new.items ≡ after (view self.now) out.old.items) };
}

/// Writes a text.
pub fn write_text(out: &mut Vec<u8>, text: &[u8]) -> Result<(), Memory>
    ensures { OnOk result (out.new.items ≡ out.old.items ++ text.now) }
{
    out.extend_from_slice(text)?;
    Ok(())
}

/// Writes each thing in turn.
pub fn write_each<T: Part>(out: &mut Vec<u8>, items: &[T]) -> Result<(), Memory>
    ensures { OnOk result (out.new.items ≡ each_after T.after (map T.view items.now)
        out.old.items) }
{
    for item in items {
        item.write(out)?;
    }
    Ok(())
}

/// Writes things with the separator between them.
pub fn write_separated<T: Part>(
    out: &mut Vec<u8>,
    separator: &[u8],
    items: &[T],
) -> Result<(), Memory>
    ensures { OnOk result (out.new.items ≡ separated_after (written separator.now) T.after
        (map T.view items.now) out.old.items) }
{
    let Some((first, rest)) = items.split_first() else {
        return Ok(());
    };
    first.write(out)?;
    for item in rest {
        write_text(out, separator)?;
        item.write(out)?;
    }
    Ok(())
}

/// Writes things with commas between them.
pub fn write_listed<T: Part>(out: &mut Vec<u8>, items: &[T]) -> Result<(), Memory>
    ensures { OnOk result (out.new.items ≡ listed_after T.after (map T.view items.now)
        out.old.items) }
{
    write_separated(out, b", ", items)
}

/// Writes such a list between two texts, or nothing where there is no thing.
pub fn write_enclosed<T: Part>(
    out: &mut Vec<u8>,
    opening: &[u8],
    closing: &[u8],
    items: &[T],
) -> Result<(), Memory>
    ensures { OnOk result (out.new.items ≡ enclosed_after (written opening.now)
        (written closing.now) T.after (map T.view items.now) out.old.items) }
{
    if items.is_empty() {
        return Ok(());
    }
    write_text(out, opening)?;
    write_listed(out, items)?;
    write_text(out, closing)
}

/// Writes such a list between braces on one line.
pub fn write_braced<T: Part>(out: &mut Vec<u8>, items: &[T]) -> Result<(), Memory>
    ensures { OnOk result (out.new.items ≡ braced_after T.after (map T.view items.now)
        out.old.items) }
{
    if items.is_empty() {
        return write_text(out, b"{}");
    }
    write_text(out, b"{ ")?;
    write_listed(out, items)?;
    write_text(out, b" }")
}
