// What a certificate says of exact matrices, as a contract. No program calls it.
ghost use Rattle.std.specs.Prelude.{ℕ};
ghost use Rattle.certified_inverse.specs.Certificate.{CertificateHolds, EnclosureHolds};
ghost use Rattle.certified_inverse.specs.Worked.{WorkedCertificates};

/// Whatever list of rectangles stands in the place of the inverse: where the certificate encloses a value, each exact matrix that is
/// held has exactly one solution of the unit right side, and its entry lies within the error.
pub fn certificate_holds()
    ensures law { (scale : ℕ) → CertificateHolds scale }
    ensures stated { (scale : ℕ) → EnclosureHolds scale }
{}

/// Certificates that were worked by hand.
pub fn worked_certificates()
    ensures law { WorkedCertificates }
{}
