//! Laws of the names of texts.
ghost use Rattle.std.specs.Prelude.{◌≡◌, ◌<◌, ◌≤◌, ◌+◌, ◌^◌, ℕ, true, false, List, length, Some, None, codes};
ghost use Rattle.model_core.specs.Core.{Core, DeclaredObject, Function, Named, object_of, function_by_id};
ghost use Rattle.model_lowering.specs.TextNames.{naming_of, external_names, made, made_number, numbered, free_from};
ghost use Rattle.model_c89.specs.Names89.{is_among};
ghost use Rattle.lowering_laws.specs.Storages.{IsNoText};
ghost use Rattle.lowering_laws.specs.Numbers.{behind_declared, behind_structures, behind_members};
ghost use Rattle.lowering_laws.specs.Wishes.{AreGood, KeptApart, wishes_of, is_declared};
ghost use Rattle.model_types.specs.declared.types.StructId.{StructId};
ghost use Rattle.model_types.specs.Structures.{Member, members_of};

/// An external function keeps its name.
#[tactic(auto, using(crate::proofs::KeptNames::function_keeps_name))]
pub fn external_function_keeps_its_name()
    ensures { (core : Core) (id : ℕ) (g : Function) (name : List ℕ) → object_of core.objects id ≡ None → function_by_id core.functions id ≡ Some g →
        g.is_external ≡ true → g.name ≡ Named name → (naming_of core).declared id ≡ name }
{}

/// An external object keeps its name.
#[tactic(auto, using(crate::proofs::KeptNames::object_keeps_name))]
pub fn external_object_keeps_its_name()
    ensures { (core : Core) (id : ℕ) (o : DeclaredObject) (name : List ℕ) → object_of core.objects id ≡ Some o → IsNoText o.storage →
        o.is_external ≡ true → o.name ≡ Some name → (naming_of core).declared id ≡ name }
{}

/// A name that has a number gives no external name, where so many numbers have names of their own.
#[tactic(auto, using(crate::proofs::FreeNumbers::numbered_is_free))]
pub fn numbered_name_is_not_external()
    ensures { (externals : List (List ℕ)) (front : List ℕ) (number : ℕ) → number + length externals < 2 ^ 64 →
        is_among externals (numbered front (free_from externals (numbered front) number)) ≡ false }
{}

/// Nor does a name that stands for nothing of the source.
#[tactic(auto, using(crate::proofs::FreeNumbers::made_is_free))]
pub fn made_name_is_not_external()
    ensures { (externals : List (List ℕ)) (front : List ℕ) (number : ℕ) → number + length externals < 2 ^ 64 →
        is_among externals (made front (free_from externals (made front) number)) ≡ false }
{}

/// Names that have different numbers are different, whatever stands before the numbers.
#[tactic(auto, using(crate::proofs::NumberedNames::numbers_differ))]
pub fn names_tell_their_numbers()
    ensures { (front other : List ℕ) (m n : ℕ) → m < 2 ^ 64 → n < 2 ^ 64 → numbered front m ≡ numbered other n → m ≡ n }
{}

/// Structures of a unit have different names.
#[tactic(auto, using(crate::proofs::StructureNames::structures_differ))]
pub fn structures_have_different_names()
    ensures { (core : Core) (id : StructId) (other : StructId) → behind_structures core ≤ 2 ^ 64 → id.0 < length core.structs → other.0 < length core.structs →
        (naming_of core).structure id ≡ (naming_of core).structure other → id ≡ other }
{}

/// Members of one structure have different names.
#[tactic(auto, using(crate::proofs::MemberNames::members_differ))]
pub fn members_have_different_names()
    ensures { (core : Core) (id : StructId) (members : List Member) (rank : ℕ) (other : ℕ) → behind_members core ≤ 2 ^ 64 → members_of core.structs id ≡ Some members →
        rank < length members → other < length members → (naming_of core).member id rank ≡ (naming_of core).member id other → rank ≡ other }
{}

/// Temporaries have different names.
#[tactic(auto, using(crate::proofs::TemporaryNames::temporaries_differ))]
pub fn temporaries_have_different_names()
    ensures { (core : Core) (count : ℕ) (number : ℕ) (other : ℕ) → made_number (external_names core) (codes "cake_t") count ≤ 2 ^ 64 → number < count → other < count →
        (naming_of core).temporary number ≡ (naming_of core).temporary other → number ≡ other }
{}

/// Objects and functions have different names, where those that are kept are external or those of strings, and are different.
#[tactic(auto, using(crate::proofs::UnitNames::declared_differ))]
pub fn objects_and_functions_have_different_names()
    ensures { (core : Core) (id : ℕ) (other : ℕ) → behind_declared core + length (external_names core) < 2 ^ 64 → AreGood (external_names core) (wishes_of core) →
        KeptApart (wishes_of core) → is_declared core id ≡ true → is_declared core other ≡ true →
        (naming_of core).declared id ≡ (naming_of core).declared other → id ≡ other }
{}

/// No object and no function has the name of a temporary.
#[tactic(auto, using(crate::proofs::ApartNames::declared_is_no_temporary))]
pub fn objects_and_functions_are_no_temporaries()
    ensures { (core : Core) (id : ℕ) (number : ℕ) → behind_declared core + length (external_names core) < 2 ^ 64 →
        made_number (external_names core) (codes "cake_t") number + length (external_names core) < 2 ^ 64 → AreGood (external_names core) (wishes_of core) →
        is_declared core id ≡ true → (naming_of core).declared id ≡ (naming_of core).temporary number → ⊥ }
{}
