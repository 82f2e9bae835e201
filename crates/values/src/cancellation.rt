// A cancellation, as a value.
ghost use Rattle.std.proofs.Common.{lit≤};
ghost use Rattle.values.specs.Values.{cancellation_bytes, cancellation_in, CancellationFits};
ghost use Rattle.values.specs.Decoding.{cancellation_whole};
ghost use Rattle.values.specs.Encoding.{cancellation_there};

use super::fields::{code_at, four_at, two_at};
use super::value::Value;
use book::Cancellation;

impl Value<10> for Cancellation {
    ghost value_in = { cancellation_in };

    ghost bytes_of = { cancellation_bytes };

    ghost fits = { CancellationFits };

    ghost whole = { cancellation_whole };

    ghost there = { λ c fits. cancellation_there c fits.member.0 fits.time fits.number };

    ghost narrow = { lit≤ tt };

    fn from_bytes(bytes: &[u8; 10]) -> Cancellation {
        Cancellation {
            time: four_at(bytes, 0),
            member: code_at(bytes, 4),
            number: two_at(bytes, 8),
        }
    }

    fn to_bytes(&self) -> [u8; 10] {
        let time = self.time.to_be_bytes();
        let member = self.member;
        let number = self.number.to_be_bytes();
        [
            time[0], time[1], time[2], time[3], member[0], member[1], member[2], member[3],
            number[0], number[1],
        ]
    }
}
