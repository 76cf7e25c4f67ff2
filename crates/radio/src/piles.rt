ghost use Rattle.radio.specs.Piles.{EveryPileKeepsTheLaws};

/// Every pile of layers that keep the laws keeps them itself: the contract is the theorem, and the call does nothing.
#[tactic(auto, using(crate::proofs::Honesty::every_pile))]
pub fn piles_keep_the_laws()
    ensures { EveryPileKeepsTheLaws }
{}
