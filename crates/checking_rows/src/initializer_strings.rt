//! Strings for arrays of characters.
ghost use Rattle.std.specs.Prelude.{◌≡◌, pos, negsuc, [], ◌∷◌};
ghost use Rattle.checking_rows.specs.InitializerAnswers.{numbers};
ghost use Rattle.checking_rows.specs.InitializerStrings as rows;

/// Strings for arrays of characters.
pub fn strings()
    ensures padded { numbers rows.padded ≡ pos 97 ∷ pos 98 ∷ pos 0 ∷ pos 0 ∷ [] }
    ensures without_zero { numbers rows.without_zero ≡ pos 97 ∷ pos 98 ∷ pos 99 ∷ [] }
    ensures in_braces { numbers rows.in_braces ≡ pos 97 ∷ pos 98 ∷ pos 0 ∷ pos 0 ∷ [] }
    ensures no_bytes { numbers rows.no_bytes ≡ pos 0 ∷ pos 0 ∷ pos 0 ∷ [] }
    ensures zero_inside { numbers rows.zero_inside ≡ pos 97 ∷ pos 0 ∷ pos 98 ∷ pos 0 ∷ [] }
    ensures as_char { numbers rows.as_char ≡ negsuc 0 ∷ pos 0 ∷ [] }
    ensures as_signed_char { numbers rows.as_signed_char ≡ negsuc 0 ∷ pos 0 ∷ [] }
    ensures as_unsigned_char { numbers rows.as_unsigned_char ≡ pos 255 ∷ pos 0 ∷ [] }
    ensures two { numbers rows.two ≡ pos 97 ∷ pos 98 ∷ pos 0 ∷ pos 99 ∷ pos 100 ∷ pos 101 ∷ [] }
    ensures one_in_braces { numbers rows.one_in_braces ≡ pos 97 ∷ pos 98 ∷ pos 0 ∷ pos 99 ∷ pos 0 ∷ pos 0 ∷ [] }
    ensures member { numbers rows.member ≡ pos 97 ∷ pos 98 ∷ pos 99 ∷ pos 0 ∷ pos 5 ∷ [] }
    ensures members_elided { numbers rows.members_elided ≡ pos 97 ∷ pos 98 ∷ pos 0 ∷ pos 0 ∷ pos 1 ∷ pos 99 ∷ pos 100 ∷ pos 0 ∷ pos 0 ∷ pos 2 ∷ [] }
    ensures member_in_braces { numbers rows.member_in_braces ≡ pos 97 ∷ pos 98 ∷ pos 0 ∷ pos 0 ∷ pos 5 ∷ [] }
    ensures element_behind { numbers rows.element_behind ≡ pos 120 ∷ pos 113 ∷ pos 122 ∷ pos 0 ∷ pos 0 ∷ [] }
    ensures element_before { numbers rows.element_before ≡ pos 97 ∷ pos 0 ∷ pos 0 ∷ pos 0 ∷ pos 0 ∷ [] }
{}
