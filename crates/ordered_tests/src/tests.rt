// The list on a row of four cards.
ghost use Rattle.std.specs.Prelude.{nat_le};
ghost use Rattle.std.proofs.Common.{rules};

use ordered::{Full, Order, OrderedList};
use std::test::Fail;

// A card stands by its rank alone. The mark tells cards of the same rank apart.
#[derive(Clone, Copy, PartialEq, Debug)]
struct Card {
    rank: u32,
    mark: u32,
}

impl Order for Card {
    ghost before = { λ x y. nat_le x.rank y.rank };

    ghost total = { Prim.search rules };

    ghost transitive = { Prim.search rules };

    fn at_or_before(&self, other: &Card) -> bool {
        self.rank <= other.rank
    }
}

// Makes a card of the rank.
fn ranked(rank: u32, mark: u32) -> Card {
    Card { rank, mark }
}

#[test]
fn equals_stay_as_they_came(rt: HostRuntime) -> Result<(), Fail> {
    let mut cards = [ranked(0, 0); 4];
    let mut list = OrderedList::new(&mut cards);
    list.insert(ranked(2, 1))?;
    list.insert(ranked(1, 2))?;
    list.insert(ranked(2, 3))?;
    assert_eq!(rt; list.get(0), Some(ranked(1, 2)));
    assert_eq!(rt; list.get(1), Some(ranked(2, 1)));
    assert_eq!(rt; list.get(2), Some(ranked(2, 3)));
    assert_eq!(rt; list.get(3), None);
    Ok(())
}

#[test]
fn a_full_list_says_so(rt: HostRuntime) {
    let mut cards = [ranked(0, 0); 1];
    let mut list = OrderedList::new(&mut cards);
    assert!(rt; list.is_empty());
    assert_eq!(rt; list.insert(ranked(2, 1)), Ok(()));
    assert_eq!(rt; list.insert(ranked(1, 2)), Err(Full));
    assert_eq!(rt; list.len(), list.capacity());
}

#[test]
fn cards_go_and_change(rt: HostRuntime) -> Result<(), Fail> {
    let mut cards = [ranked(0, 0); 4];
    let mut list = OrderedList::new(&mut cards);
    list.insert(ranked(1, 1))?;
    list.insert(ranked(2, 2))?;
    assert_eq!(rt; list.remove(0), Some(ranked(1, 1)));
    assert_eq!(rt; list.remove(1), None);
    assert!(rt; !list.rewrite(0, ranked(3, 3)));
    assert!(rt; list.rewrite(0, ranked(2, 4)));
    assert_eq!(rt; list.get(0), Some(ranked(2, 4)));
    Ok(())
}
