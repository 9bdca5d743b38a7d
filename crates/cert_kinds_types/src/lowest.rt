//! The least rule of several.

ghost use Rattle.std.specs.Prelude.{◌≡◌};
ghost use Rattle.vlt_core.specs.KindedHeads as s;
ghost use Rattle.cert_kinds_types.specs.Least.{least, lesser};

/// The lesser of two rules, where one is broken.
pub fn lesser(a: Option<u8>, b: Option<u8>) -> Option<u8>
    ensures { result ≡ lesser a b }
{
    match (a, b) {
        (None, b) => b,
        (Some(m), None) => Some(m),
        (Some(m), Some(n)) => Some(if n < m { n } else { m }),
    }
}

/// The rule, unless the test is passed.
pub fn unless(passed: bool, rule: u8) -> Option<u8>
    ensures { result ≡ least (s.unless passed rule) }
{
    if passed { None } else { Some(rule) }
}
