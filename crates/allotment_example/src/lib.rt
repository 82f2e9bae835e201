// A worked example of a tender.
#![tactic(auto)]

ghost use Rattle.allotment_example.specs.Example.{WorkedExample};

// The definitions give the figures of the worked example.
pub fn worked_example() -> u8
    ensures { WorkedExample }
{
    0
}
