//! Laws on the points of accepted programs and their certificates: nothing goes in and nothing comes out.
//! Read `vlt_points_laws/specs/Points.antt` and `cert_least_laws/specs/LeastNotes.antt` first, then `specs/Noted.antt`.
//! Used by: whoever reads `keys` of an accepted program: what it lists at loops and joins is what the certificate says.
#![tactic(auto)]

ghost use Rattle.cert_points_laws.specs.Laws.{PointsShowCertificates};

/// The points of an accepted program show its least certificate.
pub fn points_show_certificates()
    ensures { PointsShowCertificates }
{}
