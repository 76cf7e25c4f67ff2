/// What a line of input says.
#[derive(Drop)]
pub(crate) enum Command {
    /// A blank line or a comment.
    Nothing,
    Seal(Fields),
    /// The payload to take apart.
    Bodies(Vec<u8>),
    Hear(Recording),
}

/// The name of a command.
#[derive(Clone, Copy)]
pub(crate) enum Verb {
    Seal,
    Bodies,
    Hear,
}

/// The fields of a message.
#[derive(Drop)]
pub(crate) struct Fields {
    // a number, so that a type that there is none of comes to the library, which refuses it
    pub(crate) kind: u8,
    pub(crate) source: u16,
    pub(crate) destination: Option<u16>,
    pub(crate) payload: Vec<u8>,
}

/// What a receiver board recorded, and how it is to be heard.
#[derive(Drop)]
pub(crate) struct Recording {
    pub(crate) ear: Ear,
    pub(crate) bytes: Vec<u8>,
}

/// How bytes are heard.
#[derive(Clone, Copy)]
pub(crate) enum Ear {
    /// Through a pile over the octet line or the bit line.
    Piled(Bottom, Pile),
    /// By the octet line alone, with another unit.
    Unit(u16),
}

/// What the bytes of a line or of an outlet are: octets, or bits.
#[derive(Clone, Copy)]
pub(crate) enum Bottom {
    Octets,
    Bits,
}

/// The layers over the bytes: none, the standard pile, or three Block layers.
#[derive(Clone, Copy)]
pub(crate) enum Pile {
    Plain,
    Standard,
    Blocks,
}

/// What `hear` takes for its pile.
#[derive(Clone, Copy)]
pub enum Piles {
    /// No layer, or the standard pile.
    Usual,
    /// Also three Block layers, and over octets a unit.
    Trial,
}
