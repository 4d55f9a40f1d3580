//! Designators, what stands behind them, and what is overridden.
ghost use Rattle.std.specs.Prelude.{◌≡◌, pos, [], ◌∷◌};
ghost use Rattle.checking_rows.specs.InitializerAnswers.{numbers};
ghost use Rattle.checking_rows.specs.InitializerDesignators as rows;

/// Designators, what stands behind them, and what is overridden.
pub fn designators()
    ensures goes_on { numbers rows.goes_on ≡ pos 0 ∷ pos 0 ∷ pos 1 ∷ pos 2 ∷ [] }
    ensures backwards { numbers rows.backwards ≡ pos 2 ∷ pos 3 ∷ pos 0 ∷ pos 1 ∷ [] }
    ensures overridden { numbers rows.overridden ≡ pos 1 ∷ pos 5 ∷ pos 3 ∷ [] }
    ensures by_name { numbers rows.by_name ≡ pos 2 ∷ pos 0 ∷ pos 1 ∷ [] }
    ensures out_of_an_array { numbers rows.out_of_an_array ≡ pos 0 ∷ pos 1 ∷ pos 2 ∷ [] }
    ensures deep { numbers rows.deep ≡ pos 2 ∷ pos 3 ∷ pos 0 ∷ pos 1 ∷ [] }
    ensures part_behind_braces { numbers rows.part_behind_braces ≡ pos 1 ∷ pos 3 ∷ pos 0 ∷ pos 0 ∷ [] }
    ensures braces_clear { numbers rows.braces_clear ≡ pos 1 ∷ pos 0 ∷ pos 0 ∷ pos 0 ∷ [] }
    ensures elided_behind { numbers rows.elided_behind ≡ pos 0 ∷ pos 0 ∷ pos 5 ∷ pos 6 ∷ [] }
    ensures deep_goes_on { numbers rows.deep_goes_on ≡ pos 0 ∷ pos 0 ∷ pos 0 ∷ pos 0 ∷ pos 1 ∷ pos 2 ∷ pos 97 ∷ pos 98 ∷ pos 0 ∷ [] }
    ensures braces_go_on { numbers rows.braces_go_on ≡ pos 1 ∷ pos 0 ∷ pos 0 ∷ pos 7 ∷ pos 8 ∷ pos 9 ∷ [] }
    ensures element_of_a_row { numbers rows.element_of_a_row ≡ pos 0 ∷ pos 0 ∷ pos 0 ∷ pos 1 ∷ pos 5 ∷ pos 3 ∷ [] }
    ensures into_the_next_row { numbers rows.into_the_next_row ≡ pos 0 ∷ pos 0 ∷ pos 1 ∷ pos 2 ∷ pos 3 ∷ pos 0 ∷ [] }
    ensures there_and_back { numbers rows.there_and_back ≡ pos 1 ∷ pos 3 ∷ pos 4 ∷ pos 0 ∷ [] }
{}
