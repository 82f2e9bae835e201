// The numbers of a stride draw, as a value.
ghost use Rattle.std.proofs.Common.{lit≤};
ghost use Rattle.values.specs.Values.{draw_bytes, draw_in, DrawFits};
ghost use Rattle.values.specs.Decoding.{draw_whole};
ghost use Rattle.values.specs.Encoding.{draw_there};

use super::fields::two_at;
use super::value::Value;

// The stride and the shift of a draw, not yet trusted.
#[derive(Clone, Copy, PartialEq, Eq, Debug, Default)]
pub struct DrawNumbers {
    pub stride: u16,
    pub shift: u16,
}

impl Value<4> for DrawNumbers {
    ghost value_in = { draw_in };

    ghost bytes_of = { draw_bytes };

    ghost fits = { DrawFits };

    ghost whole = { draw_whole };

    ghost there = { λ d fits. draw_there d fits.stride fits.shift };

    ghost narrow = { lit≤ tt };

    fn from_bytes(bytes: &[u8; 4]) -> DrawNumbers {
        DrawNumbers {
            stride: two_at(bytes, 0),
            shift: two_at(bytes, 2),
        }
    }

    fn to_bytes(&self) -> [u8; 4] {
        let stride = self.stride.to_be_bytes();
        let shift = self.shift.to_be_bytes();
        [stride[0], stride[1], shift[0], shift[1]]
    }
}
