ghost use Rattle.std.specs.Prelude.{◌≡◌, true};
ghost use Rattle.signing.specs.Worked.{SignedCases};

// The worked cases hold, those of the maps among them.
pub fn signed_cases()
    ensures { SignedCases }
{}
