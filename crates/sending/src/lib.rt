//! The sending half of a layer: over any outlet, itself an outlet.
#![tactic(auto)]

ghost use Rattle.std.specs.Prelude.{◌<◌};
ghost use Rattle.arrayvec.specs.ArrayVec.{array_vec_len};

use arrayvec::ArrayVec;
use coding::Coding;
use radio::outlet::Outlet;

mod half;

pub use half::sending_holds;

/// The sending half of a layer over an outlet, itself an outlet. It holds back the octets of an unfinished group,
/// and writes a group below when it is full.
#[derive(Drop)]
pub struct Sending<C: Coding, O: Outlet> {
    below: O,
    coding: C,
    held: ArrayVec<u8, 8>,
    ghost unfinished: { array_vec_len held < C.Coding.grouping.plain },
}
