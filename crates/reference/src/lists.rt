// What several lists are asked.

// Whether two of them at different places have one key. It ends with the first that has another's.
pub(crate) fn twice<T, F: Fn(&T) -> u32>(all: &[T], key: F) -> bool
    requires { (state : F) (x : _) → F.pre state x }
{
    all.iter().enumerate().any(|(i, one)| all
        .iter()
        .enumerate()
        .any(|(j, other)| i != j && key(one) == key(other)))
}

// The lots of all.
pub(crate) fn total<T, F: Fn(&T) -> u32>(all: &[T], lots: F) -> u64
    requires { (state : F) (x : _) → F.pre state x }
{
    all.iter().fold(
        0,
        |total: u64, one| total.saturating_add(u64::from(lots(one))),
    )
}
