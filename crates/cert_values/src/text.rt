//! The text of a certificate, as far as it is written.

ghost use Rattle.std.specs.Prelude.{◌≡◌, ◌∷◌, ◌++◌, [], IfOk, OnOk};
ghost use Rattle.json.specs.Token.{begin_array, end_array, string};
ghost use Rattle.json.specs.Print.{print};
ghost use Rattle.cert_format.specs.Text.{marked};
ghost use Rattle.cert_values.specs.Laid.{natural_token, below_token};
ghost use Rattle.cert_values.specs.Texts.{AreFine};

use json::Writer;
use std::alloc::{AllocError, Global};
use std::marker::Model;

/// The text of a certificate from its mark on. It is seen as the tokens after the mark.
#[derive(Drop)]
pub struct CertText {
    out: Writer,
}

impl Model for CertText {
    ghost use Rattle.std.specs.Prelude.{List};
    ghost use Rattle.json.specs.Token.{Token, tokens_code};

    ghost Value = { List Token };

    ghost coded = { tokens_code };

    ghost use Rattle.cert_values.specs.Texts.{IsText};

    ghost view = { λ t. t.out.tokens };

    ghost invariant = { IsText };
}

impl CertText {
    /// The mark alone.
    pub fn new(alloc: Global) -> Result<CertText, AllocError>
        ensures { IfOk result (λ out. out ≡ []) }
    {
        let mut out = Vec::new(alloc);
        out.extend_from_slice(b"/*VAULT-CERT\n")?;
        Ok(CertText {
            out: Writer::new(out),
        })
    }

    /// Writes the bracket that begins an array.
    #[tactic(auto, using(crate::proofs::Fine::fine_more))]
    pub fn begin(&mut self) -> Result<(), AllocError>
        ensures { OnOk result (self.new ≡ self.old ++ begin_array ∷ []) }
    {
        self.out.begin_array()
    }

    /// Writes the bracket that ends an array.
    #[tactic(auto, using(crate::proofs::Fine::fine_more))]
    pub fn end(&mut self) -> Result<(), AllocError>
        ensures { OnOk result (self.new ≡ self.old ++ end_array ∷ []) }
    {
        self.out.end_array()
    }

    /// Writes a string.
    #[tactic(auto, using(crate::proofs::Fine::fine_more))]
    pub fn string(&mut self, text: &str) -> Result<(), AllocError>
        ensures { OnOk result (self.new ≡ self.old ++ string text.now ∷ []) }
    {
        self.out.string(text)
    }

    /// Writes a number.
    #[tactic(auto, using(crate::proofs::Fine::fine_more))]
    pub fn number(&mut self, number: u64) -> Result<(), AllocError>
        ensures { OnOk result (self.new ≡ self.old ++ natural_token number ∷ []) }
    {
        self.out.u64(number)
    }

    /// Writes -1.
    #[tactic(auto, using(crate::proofs::Fine::fine_more))]
    pub fn minus_one(&mut self) -> Result<(), AllocError>
        ensures { OnOk result (self.new ≡ self.old ++ below_token 0 ∷ []) }
    {
        self.out.i64(-1)
    }

    /// Writes the bracket that begins an array, and a tag as its first item.
    pub fn tag(&mut self, tag: &str) -> Result<(), AllocError>
        ensures { OnOk result (self.new
            ≡ (self.old ++ begin_array ∷ []) ++ string tag.now ∷ []) }
    {
        self.begin()?;
        self.string(tag)
    }

    /// The whole text, with the closing mark.
    pub fn finish(self) -> Result<Vec<u8>, AllocError>
        ensures text { IfOk result (λ text. text.items ≡ marked (print self)) }
        ensures fine { AreFine self }
    {
        let CertText { out } = self;
        let mut text = out.into_inner();
        text.extend_from_slice(b"\n*/\n")?;
        Ok(text)
    }
}
