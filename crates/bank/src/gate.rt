//! What is checked before a call does anything.

ghost use Rattle.std.specs.Prelude.{◌≡◌, MatchResult};
ghost use Rattle.bank.specs.Gate.{Fits, Admits, AdmitsWalk, AdmitsBoth};

use books::places::{CallKind, Place, Register};
use calls::refusals::Refusal;
use node::head::CAPACITY;
use node::tables::MOST;
use walk::walks::Walk;

/// Refuses tables that do not fit together, of no node or of more than 4096.
pub(crate) fn fit(heads: usize, keys: usize, values: usize) -> Result<(), Refusal>
    ensures { MatchResult result (λ _. Fits heads keys values) (λ e. (e ≡ Refusal.Tables) × (Fits heads keys values → ⊥)) }
{
    if heads == 0 || heads > MOST {
        return Err(Refusal::Tables);
    }
    let cells = CAPACITY * heads;
    if keys != cells || values != cells {
        return Err(Refusal::Tables);
    }
    Ok(())
}

/// What stands in a place, where it is one of the sixteen and allows a call of this kind.
pub(crate) fn admit(register: &Register, at: usize, call: CallKind) -> Result<Place, Refusal>
    ensures { Admits register.now.places call at result }
{
    let place = register.place(at).ok_or(Refusal::Place)?;
    if !place.allows(call) {
        return Err(Refusal::Kind);
    }
    Ok(place)
}

/// The walk in a place, where it is one of the sixteen and allows a call of this kind: only a step or a closing is asked for here.
pub(crate) fn admit_walk(register: &Register, at: usize, call: CallKind) -> Result<Walk, Refusal>
    ensures { AdmitsWalk register.now.places call at result }
{
    let Place::Walk(walk) = admit(register, at, call)? else {
        return Err(Refusal::Kind);
    };
    Ok(walk)
}

/// What stands in two places, where both are of the sixteen, each allows a call of its kind, and they are not the same.
pub(crate) fn admit_both(
    register: &Register,
    at: usize,
    other: usize,
    call: CallKind,
    other_call: CallKind,
) -> Result<(Place, Place), Refusal>
    ensures { AdmitsBoth register.now.places call other_call at other result }
{
    let first = register.place(at).ok_or(Refusal::Place)?;
    let second = register.place(other).ok_or(Refusal::Place)?;
    if !first.allows(call) || !second.allows(other_call) || at == other {
        return Err(Refusal::Kind);
    }
    Ok((first, second))
}
