//! Rules of the family C that are broken at a place, and which of two is named.
ghost use Rattle.std.specs.Prelude.{◌≡◌};
ghost use Rattle.model_scopes.specs.DeclarationRules as m;
ghost use Rattle.model_checking.specs.Faults as f;
ghost use Rattle.model_checking.specs.FaultsBeside as b;
ghost use Rattle.model_checking.specs.FaultOrder as o;
ghost use Rattle.check_base.specs.Broken.{beside};

use crate::errors::CheckError;
use cake_base::{Family, Fault, Place, Rule};

/// A rule of the family C, by its number, at a place.
pub fn constraint(place: Place, rule: u32) -> Fault
    ensures { result ≡ m.constraint_at place rule }
{
    Fault {
        place,
        rule: Rule {
            family: Family::C,
            number: rule,
        },
    }
}

/// The rule, by its number, at the place, where this doesn't hold.
pub fn wants(holds: bool, place: Place, rule: u32) -> Option<Fault>
    ensures { result ≡ f.wants holds place rule }
{
    if holds {
        None
    } else {
        Some(constraint(place, rule))
    }
}

/// The rule, by its number, at the place, where it is broken.
pub fn fault_if(broken: bool, place: Place, rule: u32) -> Option<Fault>
    ensures { result ≡ b.fault_if broken place rule }
{
    wants(!broken, place, rule)
}

/// The rule, by its number, at the place, where there is one.
pub fn fault_at(place: Option<Place>, rule: u32) -> Option<Fault>
    ensures { result ≡ b.fault_at place rule }
{
    match place {
        Some(place) => Some(constraint(place, rule)),
        None => None,
    }
}

/// Whether the first of two faults is named rather than the other: its place comes first, or at one place its rule has
/// the smaller number.
pub fn comes_first(f: Fault, g: Fault) -> bool
    ensures { result ≡ o.comes_first f g }
{
    f.place.order < g.place.order || f.place.order == g.place.order && f.rule.number < g.rule.number
}

/// Of two faults the one that is named.
pub fn first_fault(f: Fault, g: Fault) -> Fault
    ensures { result ≡ o.first_fault f g }
{
    if comes_first(g, f) { g } else { f }
}

/// Of two faults, where there are any, the one that is named.
pub fn first_of_faults(left: Option<Fault>, right: Option<Fault>) -> Option<Fault>
    ensures { result ≡ b.first_of_faults left right }
{
    match (left, right) {
        (None, right) => right,
        (Some(left), None) => Some(left),
        (Some(left), Some(right)) => Some(first_fault(left, right)),
    }
}

/// Why a part is refused, beside a fault that is there whatever the part is: of two faults the one that is named.
pub fn refusal_beside(fault: Option<Fault>, e: CheckError) -> CheckError
    ensures { result ≡ beside fault e }
{
    match fault {
        Some(fault) => fault_beside(fault, e),
        None => e,
    }
}

fn fault_beside(fault: Fault, e: CheckError) -> CheckError
    ensures { result ≡ beside (Some fault) e }
{
    match e {
        CheckError::Fault(other) => CheckError::Fault(first_fault(fault, other)),
        CheckError::Limit(hit) => CheckError::Limit(hit),
        CheckError::NotBuilt(place) => CheckError::NotBuilt(place),
        CheckError::NoMemory => CheckError::NoMemory,
    }
}
