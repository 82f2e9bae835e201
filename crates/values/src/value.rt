// What the value of a frame says, and the bytes that say it.
ghost use Rattle.std.specs.Prelude.{◌≡◌, ◌≤◌, ℕ, List, Some, Option};
ghost use Rattle.values.specs.Fields.{Bytes, Decoded};

// A value of N bytes, decoded and encoded.
pub trait Value<const N: usize> {
    // what bytes say, if they have the width
    ghost value_in: { List ℕ → Option Self };

    // the bytes of a value
    ghost bytes_of: { Self → List ℕ };

    // every field is one that its width can say
    ghost fits: { Self → Type 0 };

    // Answers what bytes of the width say.
    fn from_bytes(bytes: &[u8; N]) -> Self
        ensures { value_in bytes.now ≡ Some result };

    // Answers the bytes of the value.
    fn to_bytes(&self) -> [u8; N]
        ensures bytes { result ≡ bytes_of self.now }
        ensures back { value_in result ≡ Some self.now };

    // Answers what the bytes say, if they have the width.
    final fn decode(bytes: &[u8]) -> Option<Self>
        ensures reads { result ≡ value_in bytes.now }
        ensures back { Decoded N bytes_of fits bytes.now result }
    {
        let bytes = <&[u8; N]>::try_from(bytes).ok()?;
        Some(Self::from_bytes(bytes))
    }

    // Bytes of the width are exactly those of what they say, and others say nothing.
    ghost whole: { (bs : List ℕ) → Bytes bs → Decoded N bytes_of fits bs (value_in bs) };

    // What fits is read back from its bytes.
    ghost there: { (x : Self) → fits x → value_in (bytes_of x) ≡ Some x };

    // A frame's length can say the width.
    ghost narrow: { N ≤ 65535 };
}
