//! The composition of two functions as one.

ghost use Rattle.std.specs.Prelude.{◌≡◌, ◌↔◌, IsNone, IfSome};
ghost use Rattle.phi_algebra.specs.Composition.{AreApart, IsComposition, composed, composed_across};

use crate::laws;
use crate::phi::Phi;

/// The function that does `first` and then `second`.
///
/// Two functions of one kind compose to one of that kind. Across kinds, an identity gives the other
/// function, and a constant function gives a constant one. All other pairs give `None`, even if
/// some `Phi` would mean their composition.
#[tactic(auto, unfolding(crate::specs::Composition::composed))]
pub fn compose(first: &Phi, second: &Phi) -> Option<Phi>
    ensures exact { result ≡ composed first.now second.now }
    ensures meaning { IfSome result (IsComposition first.now second.now) }
    ensures none { IsNone result ↔ AreApart first.now second.now }
{
    // The proof of the meaning needs both functions in range.
    laws::keeps_its_range(first);
    laws::keeps_its_range(second);
    match (first, second) {
        (Phi::Add(amount), Phi::Add(further)) => Some(Phi::Add(amount.wrapping_add(*further))),
        (
            Phi::Bits { and, xor },
            Phi::Bits {
                and: mask,
                xor: turned,
            },
        ) => Some(Phi::Bits {
            and: *and & *mask,
            xor: (*xor & *mask) ^ *turned,
        }),
        (Phi::Clamp(range), Phi::Clamp(other)) => Some(Phi::Clamp(range.brought_into(*other))),
        (Phi::ClampU(range), Phi::ClampU(other)) => Some(Phi::ClampU(range.brought_into(*other))),
        _ => compose_across(first, second),
    }
}

/// The composition of two functions of different kinds.
fn compose_across(first: &Phi, second: &Phi) -> Option<Phi>
    ensures { result ≡ composed_across first.now second.now }
{
    if first.is_identity() || second.is_constant() {
        Some(*second)
    } else if second.is_identity() {
        Some(*first)
    } else if first.is_constant() {
        Some(Phi::constant(second.apply(first.apply(0))))
    } else {
        None
    }
}
