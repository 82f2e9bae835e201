// Numbers and codes in the bytes of a value, the high byte first. Two and four bytes have a function each: the library has no trait
// of `from_be_bytes`, and one of ours would be longer than both.
ghost use Rattle.std.specs.Prelude.{◌≡◌, ◌+◌, ◌≤◌, length};
ghost use Rattle.values.specs.Fields.{two_at, four_at, code_at};

// Answers the number in the two bytes at the place.
pub(crate) fn two_at(value: &[u8], at: usize) -> u16
    requires { at + 2 ≤ length value.now }
    ensures { result ≡ two_at value.now at }
{
    u16::from_be_bytes([value[at], value[at + 1]])
}

// Answers the number in the four bytes at the place.
pub(crate) fn four_at(value: &[u8], at: usize) -> u32
    requires { at + 4 ≤ length value.now }
    ensures { result ≡ four_at value.now at }
{
    u32::from_be_bytes(code_at(value, at))
}

// Answers the four bytes at the place.
pub(crate) fn code_at(value: &[u8], at: usize) -> [u8; 4]
    requires { at + 4 ≤ length value.now }
    ensures { result ≡ code_at value.now at }
{
    [value[at], value[at + 1], value[at + 2], value[at + 3]]
}
