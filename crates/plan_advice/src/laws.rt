//! The laws of advice. Their bodies are empty; a caller's clause follows from them.
ghost use Rattle.plan_advice.specs.Advices.{RunsHaveOneAdvice};
ghost use Rattle.plan_advice.specs.Cuttings.{CertificatesBound};

/// Every cutting into blocks costs at least the last bound of a certificate, whatever the blocks cost.
pub fn every_cutting_costs()
    ensures { CertificatesBound }
{}

/// There is one advice on a run with so many ranks for a block at most: the bounds follow one from the other, and each block's beginning
/// from its end.
pub fn one_advice()
    ensures { RunsHaveOneAdvice }
{}
