// The worked examples of all layers.
ghost use Rattle.std.specs.Prelude.{◌≡◌, [], ◌∷◌};
ghost use Rattle.settlement_example.specs.Examples.{WorkedExamples};

use settlement::late_charge;

// Answers the shares of the worked example, and what a payment a second late costs. The worked examples of sharing, allotment and
// settlement hold as one statement.
pub fn worked_examples() -> ([u32; 3], u64)
    ensures figures { (result.0 ≡ 4 ∷ 2 ∷ 1 ∷ []) × (result.1 ≡ 3000000) }
    ensures examples { WorkedExamples }
{
    let _ = allotment_example::worked_example();
    (sharing::worked_example(), late_charge(55_801))
}
