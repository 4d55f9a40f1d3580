//! calls and members: what the definition of checking answers.
ghost use Rattle.std.specs.Prelude.{◌≡◌};
ghost use Rattle.checking_units.specs.Parts.{outcome, accepted, breaks};
ghost use Rattle.checking_units.specs.RowsCallsAndMembers as rows;

/// calls and members.
pub fn rows_calls_and_members()
    ensures calls_and_members_1 { outcome rows.calls_and_members_1 ≡ breaks 15 51 }
    ensures calls_and_members_2 { outcome rows.calls_and_members_2 ≡ breaks 15 46 }
    ensures calls_and_members_3 { outcome rows.calls_and_members_3 ≡ breaks 16 30 }
    ensures calls_and_members_4 { outcome rows.calls_and_members_4 ≡ breaks 22 67 }
    ensures calls_and_members_5 { outcome rows.calls_and_members_5 ≡ accepted }
    ensures calls_and_members_6 { outcome rows.calls_and_members_6 ≡ breaks 9 45 }
    ensures calls_and_members_7 { outcome rows.calls_and_members_7 ≡ breaks 12 39 }
    ensures calls_and_members_8 { outcome rows.calls_and_members_8 ≡ accepted }
    ensures calls_and_members_9 { outcome rows.calls_and_members_9 ≡ accepted }
    ensures calls_and_members_10 { outcome rows.calls_and_members_10 ≡ accepted }
{}
