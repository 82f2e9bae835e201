// The layers of a run in which a fault is found.
ghost use Rattle.std.specs.Prelude.{Some};
ghost use Rattle.faults.specs.Words.{layer_word};

use std::fmt;

// Where a fault is found.
#[derive(Clone, Copy, PartialEq, Eq, Debug)]
pub enum Layer {
    // in the bytes of a frame
    Frame,
    // in the order of the frames
    Order,
    // in what a frame asks for
    Rule,
}

// Writes the word of the layer.
impl fmt::Display for Layer {
    ghost output = { λ layer. Some (layer_word layer) };

    fn fmt<W: fmt::Write>(&self, f: &mut fmt::Formatter<W>) -> fmt::Result {
        f.write_str(match self {
            Layer::Frame => "frame",
            Layer::Order => "order",
            Layer::Rule => "rule",
        })
    }
}
