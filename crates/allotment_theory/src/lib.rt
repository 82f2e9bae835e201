// The laws of an allotment, below the code that is held to them.
#![tactic(auto)]

ghost use Rattle.allotment_theory.specs.Arrivals.{InPriority};
ghost use Rattle.allotment_theory.specs.Theorems.{Allots, Cheapest, FillsCut, FillsRow, FillsTotal, Gathers, OneFill, OnePrice, PassEnds, PassFinds, PaymentsNear, PaymentsTotal, ReceiptsFit, ReceiptsWorth, ScatterTotal, TiesAdmissible, WorthBounded};

// The laws stand: each is proved.
pub fn laws_stand() -> u8
    ensures finds { PassFinds }
    ensures ends { PassEnds }
    ensures ties { TiesAdmissible }
    ensures total { FillsTotal }
    ensures cut { FillsCut }
    ensures cheapest { Cheapest }
    ensures paid { PaymentsTotal }
    ensures near { PaymentsNear }
    ensures scatter { ScatterTotal }
    ensures bounded { WorthBounded }
    ensures gathers { Gathers }
    ensures rows { FillsRow }
    ensures worth { ReceiptsWorth }
    ensures fit { ReceiptsFit }
    ensures allots { Allots }
    ensures price { OnePrice }
    ensures fill { OneFill }
    ensures priority { InPriority }
{
    0
}
