//! What the certificate of a program gives of it.

ghost use Rattle.cert_fit_laws.specs.Programs.{CertificatesAreFormed, CertificatesAreProper, FirstVersionHasNoBounds, CertificatesHaveArms, CertificatesHaveStates, CertificatesAreAccepted};

/// A program that has a certificate is formed: sets and variants aren't empty, and nothing has too many parts.
pub fn certificates_are_formed()
    ensures { CertificatesAreFormed }
{}

/// Each operator in it has as many operands as it takes, and each number is one that a text can write.
pub fn certificates_are_proper()
    ensures { CertificatesAreProper }
{}

/// In version 1 no clause has a bound entry.
pub fn first_version_has_no_bounds()
    ensures { FirstVersionHasNoBounds }
{}

/// Where it breaks no rule on names and types, each switch in it has an arm.
pub fn certificates_have_arms()
    ensures { CertificatesHaveArms }
{}

/// And each set of states that a program of the code says has one.
pub fn certificates_have_states()
    ensures { CertificatesHaveStates }
{}

/// Where it breaks no rule on names and types, and its notes hold in its bodies, it is accepted.
pub fn certificates_are_accepted()
    ensures { CertificatesAreAccepted }
{}
