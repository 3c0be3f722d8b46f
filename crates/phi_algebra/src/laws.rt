//! Laws, each the contract of a function that does nothing.

ghost use Rattle.std.specs.Prelude.{ℕ, ◌^◌, ◌<◌};
ghost use Rattle.phi_algebra.specs.Functions.{IsInRange, apply};
ghost use Rattle.phi_algebra.specs.Laws.{CompositionIsAssociative, IdentityIsNeutral, OneKindComposes};

use crate::phi::Phi;

/// The invariant of a function: its words are below 2^32, and the ends of its range are in order.
/// So its value at a word is a word.
#[tactic(auto, using(crate::proofs::Composing::value_small))]
pub fn keeps_its_range(phi: &Phi)
    ensures fields { IsInRange phi.now }
    ensures values { (x : ℕ) → x < 2 ^ 32 → apply phi.now x < 2 ^ 32 }
{
    match phi {
        Phi::Add(amount) => {
            let _amount = *amount;
        }
        Phi::Bits { and, xor } => {
            let _words = (*and, *xor);
        }
        Phi::Clamp(range) => range.keeps_order(),
        Phi::ClampU(range) => range.keeps_order(),
    }
}

/// Composition is associative: if three functions compose in both ways, both mean the same.
pub fn composition_is_associative()
    ensures { CompositionIsAssociative }
{}

/// An identity composes with every function, on either side, and changes nothing.
pub fn identity_is_neutral()
    ensures { IdentityIsNeutral }
{}

/// Two functions of one kind compose to one of that kind.
pub fn one_kind_composes()
    ensures { OneKindComposes }
{}
