// Member codes as words: four characters, or # and eight hexadecimal digits.
ghost use Rattle.std.specs.Prelude.{◌≡◌, ◌<◌, IfSome};
ghost use Rattle.encode.specs.Codes.{all_graphic, hex_digit, hex_byte, code_in};

// Answers whether each byte is a printable character of ASCII and no space.
fn all_graphic(word: &[u8]) -> bool
    ensures { result ≡ all_graphic word.now }
{
    word.iter().all(|byte| byte.is_ascii_graphic())
}

// Answers the value of a hexadecimal digit.
fn hex_digit(digit: u8) -> Option<u8>
    ensures value { result ≡ hex_digit digit }
    ensures bound { IfSome result (λ n. n < 16) }
{
    match digit {
        b'0'..=b'9' => Some(digit - b'0'),
        b'a'..=b'f' => Some(digit - b'a' + 10),
        b'A'..=b'F' => Some(digit - b'A' + 10),
        _ => None,
    }
}

// Answers the byte of two hexadecimal digits.
fn hex_byte(high: u8, low: u8) -> Option<u8>
    ensures { result ≡ hex_byte high low }
{
    Some(hex_digit(high)? * 16 + hex_digit(low)?)
}

// Answers the member code that the word writes.
pub fn code(word: &[u8]) -> Option<[u8; 4]>
    ensures { result ≡ code_in word.now }
{
    match word {
        [b'#', a, b, c, d, e, f, g, h] => Some([
            hex_byte(*a, *b)?,
            hex_byte(*c, *d)?,
            hex_byte(*e, *f)?,
            hex_byte(*g, *h)?,
        ]),
        [a, b, c, d] if all_graphic(word) => Some([*a, *b, *c, *d]),
        _ => None,
    }
}
