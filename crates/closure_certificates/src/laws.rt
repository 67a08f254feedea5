//! Laws about the certificates of networks, each the contract of a function without parameters.

ghost use Rattle.closure_certificates.specs.Certified.{CertificatesAreOne, TableProofsProve};
ghost use Rattle.closure_certificates.specs.Laws.{TableProofsAreAccepted, TableProofsHaveWeights};

/// The table proof of a sound network, by its closure and an order of its points, is accepted.
pub fn law_table_proofs_are_accepted()
    ensures { TableProofsAreAccepted }
{}

/// The weights of such a table proof are within the limit of those that are printed.
pub fn law_table_proofs_have_weights()
    ensures { TableProofsHaveWeights }
{}

/// If the network is controllable, the table proof with the points in the order in which they are
/// placed proves it so.
pub fn law_table_proofs_prove()
    ensures { TableProofsProve }
{}

/// A network has one certificate at most that decides it, however it was made: that table proof, or
/// the certificate of its refutation.
pub fn law_certificates_are_one()
    ensures { CertificatesAreOne }
{}
