//! Laws of the types of values in texts.
ghost use Rattle.std.specs.Prelude.{◌≡◌, true, ℤ};
ghost use Rattle.model_types.specs.Types.{CType};
ghost use Rattle.model_core.specs.Types89.{Type89};
ghost use Rattle.model_core.specs.Program89.{Expr};
ghost use Rattle.model_c89.specs.TargetTypes.{Names, value_type, decayed};
ghost use Rattle.c_model.specs.WrittenType.{StructNames, written_value};
ghost use Rattle.model_lowering.specs.TextValues.{as_type, constant, is_integer};

/// A constant of an integer type has the type that the text writes for it.
#[tactic(auto, using(crate::proofs::ValueTypes::constant_type_is))]
pub fn constant_has_its_type()
    ensures { (names : Names) (structs : StructNames) (value : ℤ) (type : CType) → is_integer type ≡ true →
        value_type names (constant structs value type) ≡ written_value structs type }
{}

/// A value that becomes one of another type of values has that type.
#[tactic(auto, using(crate::proofs::ValueTypes::as_type_is))]
pub fn value_becomes_its_type()
    ensures { (names : Names) (have want : Type89) (e : Expr) → decayed want ≡ want → value_type names e ≡ have →
        value_type names (as_type have want e) ≡ want }
{}
