// Numbers and letters as words.
ghost use Rattle.std.specs.Prelude.{◌≡◌, ◌≤◌, IfSome};
ghost use Rattle.encode.specs.Numbers.{letter_in, with_digit, number_in};

// Answers the one byte of the word.
pub fn letter(word: &[u8]) -> Option<u8>
    ensures { result ≡ letter_in word.now }
{
    let [letter] = word else {
        return None;
    };
    Some(*letter)
}

// Answers the number with one decimal digit more, if it is one and the number does not pass the most.
fn with_digit(number: u32, digit: u8, most: u32) -> Option<u32>
    ensures more { result ≡ with_digit most number digit }
    ensures bound { IfSome result (λ n. n ≤ most) }
{
    if !digit.is_ascii_digit() {
        return None;
    }
    let next = u64::from(number) * 10 + u64::from(digit - b'0');
    if next > u64::from(most) {
        return None;
    }
    Some(next as u32)
}

// Answers the number that the word writes in decimal digits, if it is not above the most.
fn decimal(word: &[u8], most: u32) -> Option<u32>
    ensures number { result ≡ number_in most word.now }
    ensures bound { IfSome result (λ n. n ≤ most) }
{
    if word.is_empty() {
        return None;
    }
    let mut number = 0;
    for digit in word {
        number = with_digit(number, *digit, most)?;
    }
    Some(number)
}

// Three functions of one line, which differ in a type and its most: one over `N: TryFrom<u32>` promises what its bound does and no
// number, so each field of each message would show its own anew (tried: `search` gives up at its limits there).

// Answers the number of the word, if one byte can say it.
pub fn one_byte(word: &[u8]) -> Option<u8>
    ensures { result ≡ number_in 255 word.now }
{
    Some(decimal(word, 255)? as u8)
}

// Answers the number of the word, if two bytes can say it.
pub fn two_bytes(word: &[u8]) -> Option<u16>
    ensures { result ≡ number_in 65535 word.now }
{
    Some(decimal(word, 65_535)? as u16)
}

// Answers the number of the word, if four bytes can say it.
pub fn four_bytes(word: &[u8]) -> Option<u32>
    ensures { result ≡ number_in 4294967295 word.now }
{
    decimal(word, 4_294_967_295)
}
