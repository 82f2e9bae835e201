// A number of four bytes, as a value: the base price at the opening, or the time of the close.
ghost use Rattle.std.proofs.Common.{lit≤};
ghost use Rattle.values.specs.Fields.{four_bytes, Word};
ghost use Rattle.values.specs.Values.{amount_in};
ghost use Rattle.values.specs.Decoding.{amount_whole};
ghost use Rattle.values.specs.Encoding.{amount_there};

use super::value::Value;

impl Value<4> for u32 {
    ghost value_in = { amount_in };

    ghost bytes_of = { four_bytes };

    ghost fits = { Word };

    ghost whole = { amount_whole };

    ghost there = { amount_there };

    ghost narrow = { lit≤ tt };

    fn from_bytes(bytes: &[u8; 4]) -> u32 {
        u32::from_be_bytes(*bytes)
    }

    fn to_bytes(&self) -> [u8; 4] {
        self.to_be_bytes()
    }
}
