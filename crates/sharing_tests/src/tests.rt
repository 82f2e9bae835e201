use sharing::{
    Claim, Draw, LargestRemainder, Proportional, RecordedDraw, Refusal, SharingRule, StrideDraw,
    TimeOrder,
};
use std::test::Fail;

// The number of an answer: 0 where the call is accepted.
fn code<T: Drop>(answer: Result<T, Refusal>) -> u8 {
    match answer {
        Ok(_) => 0,
        Err(refusal) => refusal.number(),
    }
}

const CLAIMS: [Claim; 3] = [
    Claim { number: 1, lots: 4 },
    Claim { number: 2, lots: 1 },
    Claim { number: 3, lots: 1 },
];

#[test]
fn stride_and_shift_are_judged(rt: HostRuntime) {
    assert_eq!(rt; code(StrideDraw::new(511, 511)), 0);
    assert_eq!(rt; code(StrideDraw::new(2, 0)), 19);
    assert_eq!(rt; code(StrideDraw::new(513, 0)), 19);
    assert_eq!(rt; code(StrideDraw::new(1, 512)), 19);
}

#[test]
fn ranks_are_judged(rt: HostRuntime) {
    assert_eq!(rt; code(RecordedDraw::check(&[0; 511])), 17);
    assert_eq!(rt; code(RecordedDraw::check(&[0; 513])), 17);
    assert_eq!(rt; code(RecordedDraw::check(&[0; 512])), 18);
    let mut plain = RecordedDraw::new(&[0; 512]);
    assert_eq!(rt; plain.rank(7), 7);
    assert_eq!(rt; plain.rank(600), 511);
}

#[test]
fn claims_are_judged(rt: HostRuntime) {
    let mut shares = [9; 2];
    let mut rule = TimeOrder;
    assert_eq!(rt; code(rule.share(&CLAIMS, 3, &mut shares)), 16);
    let twice = [Claim { number: 5, lots: 1 }; 2];
    assert_eq!(rt; code(rule.share(&twice, 3, &mut shares)), 16);
    let over = [
        Claim {
            number: 512,
            lots: 1,
        },
        Claim { number: 0, lots: 1 },
    ];
    assert_eq!(rt; code(rule.share(&over, 3, &mut shares)), 16);
    let none = [Claim { number: 1, lots: 0 }, Claim { number: 0, lots: 1 }];
    assert_eq!(rt; code(rule.share(&none, 3, &mut shares)), 16);
    assert_eq!(rt; shares, [9; 2]);
}

#[test]
fn shares_by_each_rule(rt: HostRuntime) -> Result<(), Fail> {
    let mut shares = [0; 3];
    let mut proportional = Proportional::new(StrideDraw::new(509, 0)?);
    assert_eq!(rt; code(proportional.share(&CLAIMS, 3, &mut shares)), 0);
    assert_eq!(rt; shares, [2, 0, 1]);
    let mut remainder = LargestRemainder::new(proportional.into_draw());
    assert_eq!(rt; code(remainder.share(&CLAIMS, 3, &mut shares)), 0);
    assert_eq!(rt; shares, [2, 0, 1]);
    let mut time = TimeOrder;
    assert_eq!(rt; code(time.share(&CLAIMS, 5, &mut shares)), 0);
    assert_eq!(rt; shares, [4, 1, 0]);
    Ok(())
}
