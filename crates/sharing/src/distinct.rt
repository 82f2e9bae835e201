ghost use Rattle.std.specs.Prelude.{◌≡◌, map};
ghost use Rattle.sharing.specs.Distinct.{among, distinct};

use super::numbered::Numbered;

// Whether one of the items has the number. It is a loop, since `any` over the mapped items takes near four times as long.
fn has_number<T: Numbered>(items: &[T], number: u16) -> bool
    ensures { result ≡ among number (map T.numbered items.now) }
{
    for item in items {
        if item.number() == number {
            return true;
        }
    }
    false
}

// Whether no two of the items have the same number. It ends at the first that has the number of an earlier one.
pub fn all_distinct<T: Numbered>(items: &[T]) -> bool
    ensures { result ≡ distinct (map T.numbered items.now) }
{
    for (i, item) in items.iter().enumerate() {
        if has_number(&items[..i], item.number()) {
            return false;
        }
    }
    true
}
