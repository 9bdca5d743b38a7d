//! Programs of certificates are fit for the laws on checks, runs and C programs.

ghost use Rattle.cert_text_laws.specs.Fit.{CertificatesAreFit, VerifiedAreAcceptedPrograms, VerifiedRunAlike, VerifiedAreDefined};

use c_lower_accepted::accepted_programs_are_lowered_rightly;
use cert_fit_laws::{
    certificates_are_accepted, certificates_are_formed, certificates_are_proper,
    certificates_have_arms, certificates_have_states,
};

/// A program of a certificate that breaks no rule on names and types is fit.
pub fn certificates_are_fit()
    ensures { CertificatesAreFit }
{
    certificates_are_formed();
    certificates_are_proper();
    certificates_have_arms();
    certificates_have_states();
}

/// A program of the code whose certificate verifies is all that the law on C programs asks for.
pub fn verified_are_accepted_programs()
    ensures { VerifiedAreAcceptedPrograms }
{
    certificates_are_formed();
    certificates_are_proper();
    certificates_have_states();
    certificates_are_accepted();
}

/// A run of it and that of its C program have the same outcome, event text and fuel left, and the second breaks no rule of C.
pub fn verified_programs_run_alike()
    ensures alike { VerifiedRunAlike }
    ensures defined { VerifiedAreDefined }
{
    verified_are_accepted_programs();
    accepted_programs_are_lowered_rightly();
}
