// A member code as text.
ghost use Rattle.std.specs.Prelude.{◌≡◌, Some};
ghost use Rattle.lines.specs.Parts.{all_printable, hex_of, member_text};

use std::fmt;

// Answers whether each byte of the code is a printable character of ASCII, and no space.
fn is_text(code: &[u8]) -> bool
    ensures { result ≡ all_printable code.now }
{
    code.iter().all(|byte| byte.is_ascii_graphic())
}

// A byte, shown as two hexadecimal digits.
#[derive(Clone, Copy)]
struct Hex(u8);

impl fmt::Display for Hex {
    ghost output = { λ h. Some (hex_of h.0) };

    fn fmt<W: fmt::Write>(&self, f: &mut fmt::Formatter<W>) -> fmt::Result {
        let byte = self.0;
        write!(f, "{byte:02x}")
    }
}

// A member code: its four characters if each can be printed, else `#` and eight hexadecimal digits.
#[derive(Clone, Copy)]
pub(crate) struct Member(pub(crate) [u8; 4]);

impl fmt::Display for Member {
    ghost output = { λ m. Some (member_text m.0) };

    fn fmt<W: fmt::Write>(&self, f: &mut fmt::Formatter<W>) -> fmt::Result {
        let [a, b, c, d] = self.0;
        if is_text(&self.0) {
            let (a, b, c, d) = (char::from(a), char::from(b), char::from(c), char::from(d));
            write!(f, "{a}{b}{c}{d}")
        } else {
            let (a, b, c, d) = (Hex(a), Hex(b), Hex(c), Hex(d));
            write!(f, "#{a}{b}{c}{d}")
        }
    }
}
