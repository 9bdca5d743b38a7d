//! Why a C file doesn't verify.

ghost use Rattle.std.specs.Prelude.{◌≡◌};
ghost use Rattle.cert_verify.specs.Parts.{of_c, of_read, of_kinded, of_match};

use c_match::MatchError;
use c_reader::CError;
use cert_check::LocalRefusal;
use cert_kinds::KindedError;
use cert_read::ReadError;
use thiserror::Error;

/// The first part of a C file's verification that fails.
#[derive(Clone, Copy, Debug, Error)]
pub enum VerifyError {
    /// The text stands for no C program. It isn't for want of memory, which is `Memory`.
    #[error("the text stands for no C program")]
    C(CError),
    /// There is no mark of a certificate, or no certificate from there on.
    #[error("there is no certificate")]
    Certificate,
    /// The least rule that the first broken row of the certificate's program breaks.
    #[error("the certificate's program breaks rule {rule}")]
    Kind { rule: u8 },
    /// The first test that the notes fail.
    #[error("the notes don't hold")]
    Local(LocalRefusal),
    /// The C program isn't the lowering of the certificate's program. The statement is the first one whose lowering isn't there,
    /// counted from 0 over the whole program; outside all statements it is their number.
    #[error("the C program isn't the lowering, from statement {statement} on")]
    NotLowered { statement: u64 },
    #[error("there was no memory")]
    Memory,
}

impl From<CError> for VerifyError {
    ghost from_gives = { λ x e. e ≡ of_c x };

    fn from(error: CError) -> VerifyError {
        match error {
            CError::Memory => VerifyError::Memory,
            CError::Unexpected(at) => VerifyError::C(CError::Unexpected(at)),
            CError::EndOfText => VerifyError::C(CError::EndOfText),
            CError::Kind { rule, at } => VerifyError::C(CError::Kind { rule, at }),
            CError::Limit(number) => VerifyError::C(CError::Limit(number)),
        }
    }
}

impl From<ReadError> for VerifyError {
    ghost from_gives = { λ x e. e ≡ of_read x };

    fn from(error: ReadError) -> VerifyError {
        match error {
            ReadError::Memory => VerifyError::Memory,
            ReadError::NotJson => VerifyError::Certificate,
            ReadError::Form(_) => VerifyError::Certificate,
        }
    }
}

impl From<KindedError> for VerifyError {
    ghost from_gives = { λ x e. e ≡ of_kinded x };

    fn from(error: KindedError) -> VerifyError {
        match error {
            KindedError::Broken { row: _, rule } => VerifyError::Kind { rule },
            KindedError::Memory => VerifyError::Memory,
        }
    }
}

impl From<MatchError> for VerifyError {
    ghost from_gives = { λ x e. e ≡ of_match x };

    fn from(error: MatchError) -> VerifyError {
        match error {
            MatchError::Differs { statement } => VerifyError::NotLowered { statement },
            MatchError::Memory => VerifyError::Memory,
        }
    }
}
