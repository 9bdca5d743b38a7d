//! The least annotations of a program's functions.

ghost use Rattle.std.specs.Prelude.{◌≡◌, IfOk, false};
ghost use Rattle.vlt_core.specs.View.{program_of, func_of};
ghost use Rattle.vlt_core.specs.Instances.{IsOrigin, origins};
ghost use Rattle.cert_least_texts.specs.Annotated.{IsAnnotatedIn, AreAnnotatedIn, IsAnnotatedBy, AreAnnotatedBy};
ghost use Rattle.cert_emit.specs.Causes.{IfError, IsRefused, IsUnfit, HasInstance, HasRefused, HasUnfit};
ghost use Rattle.cert_emit.specs.declared.errors.CertificateError.TheVariants.{Refused, Unfit, Name};

use crate::errors::CertificateError;
use std::alloc::Global;
use vlt_base::Items;
use vlt_core::{Annotation, Func, Program};
use vlt_flow::annotate;
use vlt_rows::origins;

/// The annotation of the function's instance of this origin.
fn annotation_in(
    alloc: Global,
    p: &Program,
    f: &Func,
    origin: Option<u8>,
) -> Result<Annotation, CertificateError>
    requires { IsOrigin (program_of p.now) (func_of f.now) origin }
    ensures ok { IfOk result (IsAnnotatedIn p.now f.now origin) }
    ensures refused { IfError Refused result (HasInstance (program_of p.now) (func_of f.now)
        (IsRefused (program_of p.now))) }
    ensures unfit { IfError Unfit result (HasInstance (program_of p.now) (func_of f.now)
        (IsUnfit (program_of p.now))) }
    ensures named { IfError Name result ⊥ }
{
    let annotation = annotate(alloc, p, f, origin)?;
    Ok(annotation)
}

/// The annotation of each instance of a function, in the order of their origins.
fn instance_annotations(
    alloc: Global,
    p: &Program,
    f: &Func,
) -> Result<Items<Annotation>, CertificateError>
    ensures ok { IfOk result (AreAnnotatedIn p.now f.now
        (origins (program_of p.now) (func_of f.now))) }
    ensures refused { IfError Refused result (HasInstance (program_of p.now) (func_of f.now)
        (IsRefused (program_of p.now))) }
    ensures unfit { IfError Unfit result (HasInstance (program_of p.now) (func_of f.now)
        (IsUnfit (program_of p.now))) }
    ensures named { IfError Name result ⊥ }
{
    let origins = origins(alloc, p, f)?;
    let mut own = Items::new(alloc);
    for origin in origins.as_slice() {
        own.push(annotation_in(alloc, p, f, *origin)?)?;
    }
    Ok(own)
}

/// The annotations of a function with a body; none of an external.
fn annotations_of(
    alloc: Global,
    p: &Program,
    f: &Func,
) -> Result<Items<Annotation>, CertificateError>
    ensures ok { IfOk result (IsAnnotatedBy p.now f.now) }
    ensures refused { IfError Refused result (((func_of f.now).external ≡ false) ×
        HasInstance (program_of p.now) (func_of f.now) (IsRefused (program_of p.now))) }
    ensures unfit { IfError Unfit result (((func_of f.now).external ≡ false) ×
        HasInstance (program_of p.now) (func_of f.now) (IsUnfit (program_of p.now))) }
    ensures named { IfError Name result ⊥ }
{
    if f.external {
        Ok(Items::new(alloc))
    } else {
        instance_annotations(alloc, p, f)
    }
}

/// Those of each function, in order.
pub fn annotations(alloc: Global, p: &Program) -> Result<Items<Items<Annotation>>, CertificateError>
    ensures ok { IfOk result (AreAnnotatedBy p.now p.now.fns) }
    ensures refused { IfError Refused result (HasRefused (program_of p.now)) }
    ensures unfit { IfError Unfit result (HasUnfit (program_of p.now)) }
    ensures named { IfError Name result ⊥ }
{
    let mut all = Items::new(alloc);
    for f in p.fns.as_slice() {
        all.push(annotations_of(alloc, p, f)?)?;
    }
    Ok(all)
}
