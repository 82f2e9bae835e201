// A buyer, as a value.
ghost use Rattle.std.proofs.Common.{lit≤};
ghost use Rattle.values.specs.Values.{buyer_bytes, buyer_in, BuyerFits};
ghost use Rattle.values.specs.Decoding.{buyer_whole};
ghost use Rattle.values.specs.Encoding.{buyer_there};

use super::fields::four_at;
use super::value::Value;
use stages::Buyer;

impl Value<8> for Buyer {
    ghost value_in = { buyer_in };

    ghost bytes_of = { buyer_bytes };

    ghost fits = { BuyerFits };

    ghost whole = { buyer_whole };

    ghost there = { λ b fits. buyer_there b fits.account fits.lots };

    ghost narrow = { lit≤ tt };

    fn from_bytes(bytes: &[u8; 8]) -> Buyer {
        Buyer {
            account: four_at(bytes, 0),
            lots: four_at(bytes, 4),
        }
    }

    fn to_bytes(&self) -> [u8; 8] {
        let account = self.account.to_be_bytes();
        let lots = self.lots.to_be_bytes();
        [
            account[0], account[1], account[2], account[3], lots[0], lots[1], lots[2], lots[3],
        ]
    }
}
