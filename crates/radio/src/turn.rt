/// Where an outlet stands between two calls.
#[derive(Clone, Copy, PartialEq, Eq, Debug)]
pub enum Turn {
    /// No message is under way.
    Idle,
    /// A message is under way and is owed so many octets.
    Owing(u16),
    /// A message is under way below that this outlet has no part in: nothing can be begun, put or ended.
    Stuck,
}
