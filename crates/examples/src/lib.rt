//! Worked examples as tests. They stand in a crate of their own, so that no library is proved twice for its tests.
#![tactic(auto)]

#[cfg(test)]
mod codings;
#[cfg(test)]
mod messages;
#[cfg(test)]
mod payloads;
