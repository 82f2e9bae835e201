// A line's words as a message.
ghost use Rattle.std.specs.Prelude.{◌≡◌};
ghost use Rattle.encode.specs.Lines.{terms_said, buyer_said, draw_said, amount_said, entry_said, change_said, cancellation_said, message_said, passed_over};
ghost use Rattle.encode.specs.Pieces.{told};

use super::code::code;
use super::number::{four_bytes, letter, one_byte, two_bytes};
use super::verb::named;
use book::{Call, Cancellation, Change, Entry};
use messages::{Message, Tag};
use stages::{Buyer, Terms};
use values::DrawNumbers;

// terms KIND METHOD SHORTFALL UNIT PREVIOUS-CLOSE BANK-CLOSING
fn terms(words: &[&[u8]]) -> Option<Terms>
    ensures { result ≡ terms_said (told words.now) }
{
    let [_, kind, method, shortfall, unit, close, bank] = words else {
        return None;
    };
    Some(Terms {
        kind: letter(kind)?,
        method: one_byte(method)?,
        shortfall: letter(shortfall)?,
        unit: two_bytes(unit)?,
        previous_close: four_bytes(close)?,
        bank_closing: four_bytes(bank)?,
    })
}

// buyer ACCOUNT LOTS
fn buyer(words: &[&[u8]]) -> Option<Buyer>
    ensures { result ≡ buyer_said (told words.now) }
{
    let [_, account, lots] = words else {
        return None;
    };
    Some(Buyer {
        account: four_bytes(account)?,
        lots: four_bytes(lots)?,
    })
}

// draw STRIDE SHIFT
fn draw(words: &[&[u8]]) -> Option<DrawNumbers>
    ensures { result ≡ draw_said (told words.now) }
{
    let [_, stride, shift] = words else {
        return None;
    };
    Some(DrawNumbers {
        stride: two_bytes(stride)?,
        shift: two_bytes(shift)?,
    })
}

// open PRICE, or close TIME
fn amount(words: &[&[u8]]) -> Option<u32>
    ensures { result ≡ amount_said (told words.now) }
{
    let [_, amount] = words else {
        return None;
    };
    four_bytes(amount)
}

// entry TIME MEMBER ACCOUNT PRICE LOTS
fn entry(words: &[&[u8]]) -> Option<Entry>
    ensures { result ≡ entry_said (told words.now) }
{
    let [_, time, member, account, price, lots] = words else {
        return None;
    };
    Some(Entry {
        time: four_bytes(time)?,
        member: code(member)?,
        account: four_bytes(account)?,
        price: four_bytes(price)?,
        lots: four_bytes(lots)?,
    })
}

// change TIME MEMBER NUMBER PRICE LOTS
fn change(words: &[&[u8]]) -> Option<Change>
    ensures { result ≡ change_said (told words.now) }
{
    let [_, time, member, number, price, lots] = words else {
        return None;
    };
    Some(Change {
        time: four_bytes(time)?,
        member: code(member)?,
        number: two_bytes(number)?,
        price: four_bytes(price)?,
        lots: four_bytes(lots)?,
    })
}

// cancel TIME MEMBER NUMBER
fn cancellation(words: &[&[u8]]) -> Option<Cancellation>
    ensures { result ≡ cancellation_said (told words.now) }
{
    let [_, time, member, number] = words else {
        return None;
    };
    Some(Cancellation {
        time: four_bytes(time)?,
        member: code(member)?,
        number: two_bytes(number)?,
    })
}

// Answers whether the line has no words, or begins with #.
pub fn is_passed_over(words: &[&[u8]]) -> bool
    ensures { result ≡ passed_over (told words.now) }
{
    let [first, ..] = words else {
        return true;
    };
    first.is_empty() || first[0] == b'#'
}

// Answers the message that the words say, if they say one.
pub fn message(words: &[&[u8]]) -> Option<Message>
    ensures { result ≡ message_said (told words.now) }
{
    let [first, ..] = words else {
        return None;
    };
    match named(first)? {
        Tag::Terms => Some(Message::Terms(terms(words)?)),
        Tag::Buyer => Some(Message::Buyer(buyer(words)?)),
        Tag::Draw => Some(Message::Draw(draw(words)?)),
        Tag::Open => Some(Message::Open(amount(words)?)),
        Tag::Entry => Some(Message::Call(Call::Enter(entry(words)?))),
        Tag::Change => Some(Message::Call(Call::Change(change(words)?))),
        Tag::Cancel => Some(Message::Call(Call::Cancel(cancellation(words)?))),
        Tag::Close => Some(Message::Close(amount(words)?)),
    }
}
