/// Channel octets lie one to a byte.
#[derive(Clone, Copy)]
pub struct Octets {}

/// Channel octets lie in frames of ten bits, one behind the other, the lowest bit of each byte first.
#[derive(Clone, Copy)]
pub struct Bits {}
