// A change, as a value.
ghost use Rattle.std.proofs.Common.{lit≤};
ghost use Rattle.values.specs.Values.{change_bytes, change_in, ChangeFits};
ghost use Rattle.values.specs.Decoding.{change_whole};
ghost use Rattle.values.specs.Encoding.{change_there};

use super::fields::{code_at, four_at, two_at};
use super::value::Value;
use book::Change;

impl Value<18> for Change {
    ghost value_in = { change_in };

    ghost bytes_of = { change_bytes };

    ghost fits = { ChangeFits };

    ghost whole = { change_whole };

    ghost there = { λ c fits. change_there c fits.member.0 fits.time fits.number fits.price fits.lots };

    ghost narrow = { lit≤ tt };

    fn from_bytes(bytes: &[u8; 18]) -> Change {
        Change {
            time: four_at(bytes, 0),
            member: code_at(bytes, 4),
            number: two_at(bytes, 8),
            price: four_at(bytes, 10),
            lots: four_at(bytes, 14),
        }
    }

    fn to_bytes(&self) -> [u8; 18] {
        let time = self.time.to_be_bytes();
        let member = self.member;
        let number = self.number.to_be_bytes();
        let price = self.price.to_be_bytes();
        let lots = self.lots.to_be_bytes();
        [
            time[0], time[1], time[2], time[3], member[0], member[1], member[2], member[3],
            number[0], number[1], price[0], price[1], price[2], price[3], lots[0], lots[1],
            lots[2], lots[3],
        ]
    }
}
