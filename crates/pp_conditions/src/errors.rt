//! Why no condition is read.
use cake_base::NoMemory;
use model_conditions::conditions::ConditionRule;

/// The rule that a condition breaks, or the want of memory.
#[derive(Debug, Drop)]
pub enum Refusal {
    Broken(ConditionRule),
    NoMemory,
}

impl From<ConditionRule> for Refusal {
    ghost use Rattle.std.specs.Prelude.{◌≡◌};
    ghost use Rattle.pp_conditions.specs.declared.errors.Refusal.TheVariants as refusal;

    ghost from_gives = { λ rule e. e ≡ refusal.Broken rule };

    fn from(rule: ConditionRule) -> Refusal {
        Refusal::Broken(rule)
    }
}

impl From<NoMemory> for Refusal {
    ghost use Rattle.std.specs.Prelude.{◌≡◌};
    ghost use Rattle.pp_conditions.specs.declared.errors.Refusal.TheVariants as refusal;

    ghost from_gives = { λ _ e. e ≡ refusal.NoMemory };

    fn from(_: NoMemory) -> Refusal {
        Refusal::NoMemory
    }
}
