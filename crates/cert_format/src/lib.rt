//! A text in; the program and notes whose certificate it is out, or why it is none. Definitions alone.
//! Read `specs/Certificate.antt` first, then `specs/Readings.antt`.
//! Used by: `cert_format_laws`, whose laws say that each text has exactly one reading.
#![tactic(auto)]
