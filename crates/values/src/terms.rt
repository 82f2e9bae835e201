// The terms of a tender, as a value.
ghost use Rattle.std.proofs.Common.{lit≤};
ghost use Rattle.values.specs.Values.{terms_bytes, terms_in, TermsFit};
ghost use Rattle.values.specs.Decoding.{terms_whole};
ghost use Rattle.values.specs.Encoding.{terms_there};

use super::fields::{four_at, two_at};
use super::value::Value;
use stages::Terms;

impl Value<13> for Terms {
    ghost value_in = { terms_in };

    ghost bytes_of = { terms_bytes };

    ghost fits = { TermsFit };

    ghost whole = { terms_whole };

    ghost there = { λ t fits. terms_there t fits.unit fits.previous_close fits.bank_closing };

    ghost narrow = { lit≤ tt };

    fn from_bytes(bytes: &[u8; 13]) -> Terms {
        Terms {
            kind: bytes[0],
            method: bytes[1],
            shortfall: bytes[2],
            unit: two_at(bytes, 3),
            previous_close: four_at(bytes, 5),
            bank_closing: four_at(bytes, 9),
        }
    }

    fn to_bytes(&self) -> [u8; 13] {
        let unit = self.unit.to_be_bytes();
        let close = self.previous_close.to_be_bytes();
        let bank = self.bank_closing.to_be_bytes();
        [
            self.kind,
            self.method,
            self.shortfall,
            unit[0],
            unit[1],
            close[0],
            close[1],
            close[2],
            close[3],
            bank[0],
            bank[1],
            bank[2],
            bank[3],
        ]
    }
}
