//! Lists in braces, with elided and superfluous braces.
ghost use Rattle.std.specs.Prelude.{◌≡◌, pos, negsuc, [], ◌∷◌};
ghost use Rattle.checking_rows.specs.InitializerAnswers.{numbers};
ghost use Rattle.checking_rows.specs.InitializerLists as rows;

/// Lists in braces, with elided and superfluous braces.
pub fn lists()
    ensures missing_are_zero { numbers rows.missing_are_zero ≡ pos 1 ∷ pos 2 ∷ pos 0 ∷ pos 0 ∷ [] }
    ensures scalar { numbers rows.scalar ≡ pos 5 ∷ [] }
    ensures scalar_in_braces { numbers rows.scalar_in_braces ≡ pos 5 ∷ [] }
    ensures scalar_in_two_braces { numbers rows.scalar_in_two_braces ≡ pos 5 ∷ [] }
    ensures empty_scalar { numbers rows.empty_scalar ≡ pos 0 ∷ [] }
    ensures empty_array { numbers rows.empty_array ≡ pos 0 ∷ pos 0 ∷ [] }
    ensures empty_structure { numbers rows.empty_structure ≡ pos 0 ∷ pos 0 ∷ pos 0 ∷ pos 0 ∷ [] }
    ensures rows { numbers rows.rows ≡ pos 1 ∷ pos 0 ∷ pos 2 ∷ pos 3 ∷ [] }
    ensures rows_elided { numbers rows.rows_elided ≡ pos 1 ∷ pos 2 ∷ pos 3 ∷ pos 0 ∷ [] }
    ensures row_and_elided { numbers rows.row_and_elided ≡ pos 1 ∷ pos 2 ∷ pos 3 ∷ pos 0 ∷ [] }
    ensures members { numbers rows.members ≡ pos 1 ∷ pos 2 ∷ pos 3 ∷ [] }
    ensures member_in_braces { numbers rows.member_in_braces ≡ pos 1 ∷ pos 0 ∷ pos 3 ∷ [] }
    ensures structures_elided { numbers rows.structures_elided ≡ pos 1 ∷ pos 2 ∷ pos 3 ∷ pos 4 ∷ pos 0 ∷ pos 0 ∷ [] }
    ensures lines_elided { numbers rows.lines_elided ≡ pos 1 ∷ pos 2 ∷ pos 3 ∷ pos 4 ∷ pos 5 ∷ pos 0 ∷ pos 0 ∷ pos 0 ∷ [] }
    ensures empty_inside { numbers rows.empty_inside ≡ pos 0 ∷ pos 0 ∷ pos 7 ∷ pos 0 ∷ [] }
    ensures braces_behind_elided { numbers rows.braces_behind_elided ≡ pos 1 ∷ pos 2 ∷ pos 3 ∷ pos 4 ∷ pos 0 ∷ pos 0 ∷ pos 5 ∷ pos 0 ∷ pos 0 ∷ [] }
    ensures characters { numbers rows.characters ≡ pos 97 ∷ pos 98 ∷ pos 0 ∷ [] }
    ensures truths { numbers rows.truths ≡ pos 1 ∷ pos 0 ∷ pos 1 ∷ [] }
    ensures wider { numbers rows.wider ≡ negsuc 0 ∷ [] }
    ensures narrower { numbers rows.narrower ≡ pos 44 ∷ pos 1 ∷ [] }
{}
