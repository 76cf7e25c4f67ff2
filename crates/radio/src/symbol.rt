/// What a receiver made of one octet of the channel.
// No option: a line gives `Result<Option<Symbol>, Fault>`, in which `None` is the whole end and not a lost value.
#[derive(Clone, Copy, PartialEq, Eq, Debug, Default)]
pub enum Symbol {
    /// Heard well, with its value.
    Clean(u8),
    /// Heard, but its value is lost.
    #[default]
    Spoiled,
}
