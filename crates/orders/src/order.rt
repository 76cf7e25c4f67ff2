use message::sealed::Sealed;
use refusal::Refusal;
use station::filters::Facts;

/// What a run is told to do next.
#[derive(Clone, Copy)]
pub enum Order {
    /// Set the strength filter: off, or on with its limit.
    Strength(Option<u8>),
    /// Set the identity filter.
    Identity(bool),
    /// Mute a type, or unmute it.
    // The type is a number: a run takes every list, also one that mutes a type that there is none of.
    Mute(u8, bool),
    /// Read, with the measured strength and a payload buffer of so many octets.
    Read(u8, usize),
    /// Send a message behind a preamble of so many octets.
    Send(Sealed, u16),
}

/// What an order did that was not refused.
#[derive(Clone, Copy)]
pub enum Done {
    /// The filter is set.
    Set,
    /// The message was sent.
    Sent,
    /// The read handed up a message: what is told of it, and the payload at the start of the octets.
    // An array, and its length in the facts, since an outcome is Copy.
    Message(Facts, [u8; 66]),
}

/// What came of an order: what it did, or why it was refused.
pub type Outcome = Result<Done, Refusal>;
