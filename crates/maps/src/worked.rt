ghost use Rattle.maps.specs.Worked.{WorkedCases};

// The worked cases hold.
#[tactic(auto, using(crate::proofs::Cases::worked))]
pub fn worked_cases()
    ensures { WorkedCases }
{}
