// Why a file gives no report: a fault of a lower layer travels inside that of the upper one.
ghost use Rattle.std.specs.Prelude.{◌≡◌, ℕ, Some};
ghost use Rattle.faults.specs.declared.fault.OrderFault.TheVariants.{Frame as Framed};
ghost use Rattle.faults.specs.declared.fault.ProgramFault.TheVariants.{Order as Ordered};
ghost use Rattle.faults.specs.Faults.{layer_of, number_of, place_of, order_layer, order_number, order_place};
ghost use Rattle.faults.specs.Words.{fault_words};

use super::layer::Layer;
use frames::FrameFault;
use sharing::Refusal as SharingRefusal;
use stages::Refusal;
use std::fmt;

// What is told of a fault: its layer, its number and its place.
#[derive(Clone, Copy)]
struct Told {
    layer: Layer,
    number: u8,
    place: usize,
}

impl Told {
    fn new(layer: Layer, number: u8, place: usize) -> Told
        ensures { result ≡ record { layer = layer; number = number; place = place } }
    {
        Told {
            layer,
            number,
            place,
        }
    }
}

// Why the messages of a file cannot be read in their order.
#[derive(Clone, Copy, PartialEq, Eq, Debug)]
pub enum OrderFault {
    // a frame cannot be read
    Frame(FrameFault),
    // the message at the place is out of its order
    OutOfOrder(usize),
    // the file ended before the closing, at its length
    Ended(usize),
}

impl OrderFault {
    fn told(&self) -> Told
        ensures layer { result.layer ≡ order_layer self.now }
        ensures number { result.number ≡ order_number self.now }
        ensures place { result.place ≡ order_place self.now }
    {
        match self {
            OrderFault::Frame(fault) => Told::new(Layer::Frame, fault.number(), fault.place()),
            OrderFault::OutOfOrder(place) | OrderFault::Ended(place) => Told::new(
                Layer::Order,
                23,
                *place,
            ),
        }
    }

    // Answers the layer in which the fault was found.
    pub fn layer(&self) -> Layer
        ensures { result ≡ order_layer self.now }
    {
        self.told().layer
    }

    // Answers the number of the fault.
    pub fn number(&self) -> u8
        ensures { result ≡ order_number self.now }
    {
        self.told().number
    }

    // Answers the place of the fault.
    pub fn place(&self) -> usize
        ensures { result ≡ order_place self.now }
    {
        self.told().place
    }
}

// Written out, as below, since the clauses of what reads a file cite `from_gives`, which no derive gives.
impl From<FrameFault> for OrderFault {
    ghost from_gives = { λ e r. r ≡ Framed e };

    fn from(fault: FrameFault) -> OrderFault {
        OrderFault::Frame(fault)
    }
}

// Why a run has no report.
#[derive(Clone, Copy, PartialEq, Eq, Debug)]
pub enum ProgramFault {
    // the messages cannot be read in their order
    Order(OrderFault),
    // what the message at the place asks for is refused
    Rule(Refusal, usize),
    // the draw at the place is refused
    Draw(SharingRefusal, usize),
}

impl ProgramFault {
    fn told(&self) -> Told
        ensures layer { result.layer ≡ layer_of self.now }
        ensures number { result.number ≡ number_of self.now }
        ensures place { result.place ≡ place_of self.now }
    {
        match self {
            ProgramFault::Order(fault) => fault.told(),
            ProgramFault::Rule(refusal, place) => Told::new(Layer::Rule, refusal.number(), *place),
            ProgramFault::Draw(refusal, place) => Told::new(Layer::Rule, refusal.number(), *place),
        }
    }

    // Answers the layer in which the fault was found.
    pub fn layer(&self) -> Layer
        ensures { result ≡ layer_of self.now }
    {
        self.told().layer
    }

    // Answers the number of the fault.
    pub fn number(&self) -> u8
        ensures { result ≡ number_of self.now }
    {
        self.told().number
    }

    // Answers the place of the fault.
    pub fn place(&self) -> usize
        ensures { result ≡ place_of self.now }
    {
        self.told().place
    }
}

impl From<OrderFault> for ProgramFault {
    ghost from_gives = { λ e r. r ≡ Ordered e };

    fn from(fault: OrderFault) -> ProgramFault {
        ProgramFault::Order(fault)
    }
}

// Writes the fault in words: its layer, its number and its place.
impl fmt::Display for ProgramFault {
    ghost output = { λ fault. Some (fault_words fault) };

    fn fmt<W: fmt::Write>(&self, f: &mut fmt::Formatter<W>) -> fmt::Result {
        let told = self.told();
        write!(f, "fault {} {} at {}", told.layer, told.number, told.place)
    }
}
