// A small tender from filing to closing, as a caller of the library runs it.
#![tactic(auto)]

mod allotting;
mod script;
mod show;

use allotting::show_run;
use book::{Book, Call, Offer};
use script::{calls, financing_calls, general_calls};
use show::{Answer, Told, show_member_offer, show_offers};
use stages::{Buyer, Filed, Open, Terms, file};
use std::io;

// Opens a filed tender: the first base price is too high, and the refusal hands the tender back.
fn open(rt: &HostRuntime, filed: Filed) -> io::Result<Option<Open>> {
    let filed = match filed.open(4_601) {
        Ok(open) => return Ok(Some(open)),
        Err((refusal, filed)) => {
            println!(rt; "open at 4601: refused {}", refusal.number())?;
            filed
        }
    };
    match filed.open(4_200) {
        Ok(open) => {
            println!(rt; "open at {}", open.base_price())?;
            Ok(Some(open))
        }
        Err((refusal, _)) => {
            println!(rt; "open at 4200: refused {}", refusal.number())?;
            Ok(None)
        }
    }
}

// Makes each call and prints it with its answer.
fn trade(
    rt: &HostRuntime,
    tender: &Open,
    book: &mut Book,
    calls: &[Call],
    buyers: &[Buyer],
) -> io::Result<()> {
    for &call in calls {
        let answer = book.apply(tender, call, buyers);
        println!(rt; "{}: {}", Told(call), Answer(answer))?;
    }
    Ok(())
}

// Closes an open tender: the first time is in the window still.
fn close(rt: &HostRuntime, tender: Open) -> io::Result<()> {
    let tender = match tender.close(57_599) {
        Ok(_) => return Ok(()),
        Err((refusal, tender)) => {
            println!(rt; "close at 57599: refused {}", refusal.number())?;
            tender
        }
    };
    match tender.close(57_600) {
        Ok(closed) => println!(rt; "closed, base price {}", closed.base_price()),
        Err((refusal, _)) => println!(rt; "close at 57600: refused {}", refusal.number()),
    }
}

// Runs an open tender: its calls, what a member finds, the standing offers, and the closing.
fn run(rt: &HostRuntime, tender: Open, buyers: &[Buyer]) -> io::Result<()> {
    let mut records = [Offer::default(); 512];
    if let Err(refusal) = Book::check(&records) {
        return println!(rt; "records: refused {}", refusal.number());
    }
    let mut book = Book::new(&mut records);
    trade(rt, &tender, &mut book, &calls(), buyers)?;
    show_member_offer(rt, &book, *b"BBBB")?;
    show_member_offer(rt, &book, *b"DDDD")?;
    show_offers(rt, &book)?;
    close(rt, tender)
}

// The terms of a general tender.
const GENERAL: Terms = Terms {
    kind: b'G',
    method: 1,
    shortfall: b'T',
    unit: 1_000,
    previous_close: 4_000,
    bank_closing: 55_800,
};

// The terms of a financing tender.
const FINANCING: Terms = Terms {
    kind: b'F',
    method: 2,
    shortfall: b'T',
    unit: 1_000,
    previous_close: 4_000,
    bank_closing: 64_800,
};

// Files the tender, opens it and trades on it, call by call.
fn trade_by_hand(rt: &HostRuntime) -> io::Result<()> {
    let buyers = [Buyer {
        account: 7,
        lots: 10,
    }];
    let filed = match file(&GENERAL, &buyers) {
        Ok(filed) => filed,
        Err(refusal) => return println!(rt; "file: refused {}", refusal.number()),
    };
    println!(rt; "filed, demand {}", filed.particulars().demand)?;
    match open(rt, filed)? {
        Some(tender) => run(rt, tender, &buyers),
        None => Ok(()),
    }
}

// Trades by hand, and then has whole tenders run: a general one, and a financing one for three firms.
fn start(rt: &HostRuntime) -> io::Result<()> {
    trade_by_hand(rt)?;
    println!(rt; "a general tender for 10 lots")?;
    let buyer = Buyer {
        account: 7,
        lots: 10,
    };
    show_run(rt, &GENERAL, &[buyer], 4_200, &general_calls(), 57_600)?;
    println!(rt; "a financing tender for 5, 3 and 2 lots")?;
    let firms = [
        Buyer {
            account: 7,
            lots: 5,
        },
        Buyer {
            account: 8,
            lots: 3,
        },
        Buyer {
            account: 9,
            lots: 2,
        },
    ];
    show_run(rt, &FINANCING, &firms, 4_400, &financing_calls(), 54_000)
}

fn main(rt: HostRuntime) -> io::Result<()> {
    start(&rt)
}
