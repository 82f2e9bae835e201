// The frames that a reader knows.
ghost use Rattle.std.specs.Prelude.{◌≡◌};
ghost use Rattle.frames.specs.Layouts.{length_in};

// The length that the values of a tag have. The tags are the caller's, so a tag is a byte of the format here and no kind.
#[derive(Clone, Copy, PartialEq, Eq, Debug)]
pub struct Layout {
    pub tag: u8,
    pub length: u16,
}

// Answers the length that the layouts give for the tag, if they know it.
pub fn length_in(layouts: &[Layout], tag: u8) -> Option<u16>
    ensures { result ≡ length_in layouts.now tag }
{
    let layout = layouts.iter().find(|layout| layout.tag == tag)?;
    Some(layout.length)
}
