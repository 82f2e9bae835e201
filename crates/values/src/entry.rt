// An entry, as a value.
ghost use Rattle.std.proofs.Common.{lit≤};
ghost use Rattle.values.specs.Values.{entry_bytes, entry_in, EntryFits};
ghost use Rattle.values.specs.Decoding.{entry_whole};
ghost use Rattle.values.specs.Encoding.{entry_there};

use super::fields::{code_at, four_at};
use super::value::Value;
use book::Entry;

impl Value<20> for Entry {
    ghost value_in = { entry_in };

    ghost bytes_of = { entry_bytes };

    ghost fits = { EntryFits };

    ghost whole = { entry_whole };

    ghost there = { λ e fits. entry_there e fits.member.0 fits.time fits.account fits.price fits.lots };

    ghost narrow = { lit≤ tt };

    fn from_bytes(bytes: &[u8; 20]) -> Entry {
        Entry {
            time: four_at(bytes, 0),
            member: code_at(bytes, 4),
            account: four_at(bytes, 8),
            price: four_at(bytes, 12),
            lots: four_at(bytes, 16),
        }
    }

    fn to_bytes(&self) -> [u8; 20] {
        let time = self.time.to_be_bytes();
        let member = self.member;
        let account = self.account.to_be_bytes();
        let price = self.price.to_be_bytes();
        let lots = self.lots.to_be_bytes();
        [
            time[0], time[1], time[2], time[3], member[0], member[1], member[2], member[3],
            account[0], account[1], account[2], account[3], price[0], price[1], price[2], price[3],
            lots[0], lots[1], lots[2], lots[3],
        ]
    }
}
