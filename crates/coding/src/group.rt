ghost use Rattle.std.specs.Prelude.{◌≡◌, ◌-◌, ◌++◌, length, take, replicate};

/// The array of 8 that a coding takes: the first 8 of these items at its start, and `rest` behind them.
pub fn filled_up<T: Copy>(items: &[T], rest: T) -> [T; 8]
    ensures { result ≡ take 8 items.now ++ replicate (8 - length items.now) rest }
{
    let mut group = [rest; 8];
    let count = items.len().min(8);
    group[..count].copy_from_slice(&items[..count]);
    group
}
