//! Findings in the order in which they are reported.
ghost use Rattle.std.specs.Prelude.{◌≡◌, ◌↔◌, Contains};
ghost use Rattle.std.specs.List.Sorted.{IsStrictlySortedBy};
ghost use Rattle.own_flow.specs.Ranks.{rank_of, family_of, ranked, fault_of};

use cake_base::{Family, Fault, Place, Rule};

/// The families of rules in their order.
#[derive(Clone, Copy, PartialEq, Eq, PartialOrd, Ord)]
pub enum FamilyRank {
    P,
    L,
    S,
    C,
    F,
    G,
}

/// A finding by what decides its order, the most important part first.
#[derive(Clone, Copy, PartialEq, Eq, PartialOrd, Ord)]
pub struct Ranked {
    order: u32,
    number: u32,
    file: u32,
    line: u32,
    column: u32,
    family: FamilyRank,
}

fn family_rank(family: Family) -> FamilyRank
    ensures { result ≡ rank_of family }
{
    match family {
        Family::P => FamilyRank::P,
        Family::L => FamilyRank::L,
        Family::S => FamilyRank::S,
        Family::C => FamilyRank::C,
        Family::F => FamilyRank::F,
        Family::G => FamilyRank::G,
    }
}

fn ranked_family(rank: FamilyRank) -> Family
    ensures { result ≡ family_of rank }
{
    match rank {
        FamilyRank::P => Family::P,
        FamilyRank::L => Family::L,
        FamilyRank::S => Family::S,
        FamilyRank::C => Family::C,
        FamilyRank::F => Family::F,
        FamilyRank::G => Family::G,
    }
}

impl Ranked {
    /// The finding with its rank.
    pub fn of(fault: Fault) -> Ranked
        ensures { result ≡ ranked fault }
    {
        Ranked {
            order: fault.place.order,
            number: fault.rule.number,
            file: fault.place.file,
            line: fault.place.line,
            column: fault.place.column,
            family: family_rank(fault.rule.family),
        }
    }

    /// The finding.
    pub fn fault(self) -> Fault
        ensures { result ≡ fault_of self }
    {
        Fault {
            place: Place {
                file: self.file,
                line: self.line,
                column: self.column,
                order: self.order,
            },
            rule: Rule {
                family: ranked_family(self.family),
                number: self.number,
            },
        }
    }
}

/// Puts the list in order, and leaves one of each.
pub fn put_in_order(list: &mut Vec<Ranked>)
    ensures ordered { IsStrictlySortedBy ⟦<Ranked as Ord>⟧.cmp list.new.items }
    ensures same { (r : Ranked) → Contains list.new.items r ↔ Contains list.old.items r }
{
    list.sort_unstable();
    list.dedup();
}
