//! Which programs have certificates.

ghost use Rattle.cert_fit_laws.specs.Complete.{LimitedProgramsFit};

use cert_format_laws::programs_have_a_written_version;

/// A program of the code that breaks no rule on names and types and keeps the limits has a certificate with complete notes
/// whose maps fit. It is of version 1 where no set has links and no entry is bound.
pub fn limited_programs_fit()
    ensures { LimitedProgramsFit }
{
    programs_have_a_written_version();
}
