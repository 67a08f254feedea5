//! Laws about the certificates that refute a network, each the contract of a function without
//! parameters.

ghost use Rattle.refutation_certificates.specs.Laws.{RefutationsAreAccepted};
ghost use Rattle.refutation_certificates.specs.Laws.{RefutationsHaveWeights};
ghost use Rattle.refutation_certificates.specs.Refutations.{RefutationsAreOne};

/// If a list and a table stand on a sound network, the certificate by its refutation by a cycle of
/// the table is accepted.
pub fn law_refutations_are_accepted()
    ensures { RefutationsAreAccepted }
{}

/// The weights of such a certificate are within the limit of those that are printed.
pub fn law_refutations_have_weights()
    ensures { RefutationsHaveWeights }
{}

/// A network has one certificate of its refutation at most, by whatever it was made.
pub fn law_refutations_are_one()
    ensures { RefutationsAreOne }
{}
