use lines::{Answer, LogLine, Statement, answer_file};
use std::process::Abort;
use std::test::Fail;

// A void general tender: two offers of fewer lots than are asked for, the first by a member without a printable code.
const VOID: [u8; 94] = *b"\x01\x00\x0dG\x01V\x03\xe8\x00\x00\x0f\xa0\x00\x00\xd9\xf8\
    \x02\x00\x08\x00\x00\x00\x07\x00\x00\x00\x0a\
    \x08\x00\x04\x00\x03\x01\xfe\
    \x03\x00\x04\x00\x00\x10h\
    \x04\x00\x14\x00\x00\xd2\xf0\x00\x20A\x7e\x00\x00\x00\x14\x00\x00\x0f\xa0\x00\x00\x00\x07\
    \x04\x00\x14\x00\x00\xd2\xf0\x21\x7eaz\x00\x00\x00\x15\x00\x00\x0f\xa0\x00\x00\x00\x01\
    \x07\x00\x04\x00\x00\xe1\x00";

// A financing tender of two buyers, who are not billed with the allotment.
const FINANCING: [u8; 82] = *b"\x01\x00\x0dF\x02T\x03\xe8\x00\x00\x0f\xa0\x00\x00\xd9\xf8\
    \x02\x00\x08\x00\x00\x00\x07\x00\x00\x00\x05\
    \x02\x00\x08\x00\x00\x00\x08\x00\x00\x00\x03\
    \x08\x00\x04\x00\x03\x01\xfe\
    \x03\x00\x04\x00\x00\x10\xcc\
    \x04\x00\x14\x00\x00\xcb\xe8AAAA\x00\x00\x00\x14\x00\x00\x0f\xa0\x00\x00\x00\x06\
    \x07\x00\x04\x00\x00\xd2\xf0";

// The terms have lots of no shares, which the draw has filed.
const NO_UNIT: [u8; 34] = *b"\x01\x00\x0dG\x01T\x00\x00\x00\x00\x0f\xa0\x00\x00\xd9\xf8\
    \x02\x00\x08\x00\x00\x00\x07\x00\x00\x00\x0a\
    \x08\x00\x04\x00\x03\x01\xfe";

// Checks the text of an answer, and whether it tells of a fault.
fn check_answer(rt: &impl Abort, answer: &Answer, text: &str, fault: bool) {
    assert_eq!(rt; answer.text(), text);
    assert_eq!(rt; matches!(answer, Answer::Fault(_)), fault);
}

#[test]
fn nothing_due_has_no_price(rt: HostRuntime) -> Result<(), Fail> {
    let answer = answer_file::<LogLine>(rt.alloc(), &VOID)?;
    check_answer(
        &rt,
        &answer,
        "G 1 V due 0 price - total 0 fee 0 accepted 2 refused 0\n",
        false,
    );
    Ok(())
}

#[test]
fn a_code_that_cannot_be_printed_is_told_by_digits(rt: HostRuntime) -> Result<(), Fail> {
    let answer = answer_file::<Statement>(rt.alloc(), &VOID)?;
    check_answer(
        &rt,
        &answer,
        "G 1 V due 0 price - total 0 fee 0 accepted 2 refused 0\noffer 0 #0020417e account 20 price 4000 lots 7 filled 0\noffer 1 !~az account 21 price 4000 lots 1 filled 0\nbuyer 7 lots 10 gets 0 pays 0 billed\n",
        false,
    );
    Ok(())
}

#[test]
fn buyers_of_a_financing_tender_are_not_billed(rt: HostRuntime) -> Result<(), Fail> {
    let answer = answer_file::<Statement>(rt.alloc(), &FINANCING)?;
    check_answer(
        &rt,
        &answer,
        "F 2 T due 6 price 4000 total 24000000 fee 12000 accepted 1 refused 0\noffer 0 AAAA account 20 price 4000 lots 6 filled 6\nbuyer 7 lots 5 gets 4 pays 16000000\nbuyer 8 lots 3 gets 2 pays 8000000\n",
        false,
    );
    Ok(())
}

#[test]
fn a_fault_of_each_layer(rt: HostRuntime) -> Result<(), Fail> {
    let unknown = answer_file::<LogLine>(rt.alloc(), b"\x09\x00\x00")?;
    check_answer(&rt, &unknown, "fault frame 21 at 0\n", true);
    let cut = answer_file::<LogLine>(rt.alloc(), &VOID[..20])?;
    check_answer(&rt, &cut, "fault frame 20 at 16\n", true);
    let ended = answer_file::<Statement>(rt.alloc(), &VOID[..16])?;
    check_answer(&rt, &ended, "fault order 23 at 16\n", true);
    let refused = answer_file::<Statement>(rt.alloc(), &NO_UNIT)?;
    check_answer(&rt, &refused, "fault rule 1 at 27\n", true);
    Ok(())
}
