ghost use Rattle.std.specs.Prelude.{◌≡◌, ◌+◌, ◌≤◌, [], ◌++◌, length};

/// Up to `N` octets.
// An array with a count beside it: no library's vector is `Copy`, as a sealed message is.
#[derive(Clone, Copy)]
pub(crate) struct Buffer<const N: usize> {
    octets: [u8; N],
    count: usize,
    ghost long: { length octets ≡ N },
    ghost within: { count ≤ N },
}

impl<const N: usize> Buffer<N> {
    ghost use Rattle.message.specs.Parts.{items};

    pub(crate) fn empty() -> Self
        ensures { items result ≡ [] }
    {
        Buffer {
            octets: [0; N],
            count: 0,
        }
    }

    pub(crate) fn as_slice(&self) -> &[u8]
        ensures { result.now ≡ items self.now }
    {
        &self.octets[..self.count]
    }

    /// How many octets more it takes.
    pub(crate) fn room(&self) -> usize
        ensures { length (items self.now) + result ≡ N }
    {
        N - self.count
    }

    pub(crate) fn append(&mut self, more: &[u8])
        requires { length (items self.old) + length more.now ≤ N }
        ensures { items self.new ≡ items self.old ++ more.now }
    {
        let end = self.count + more.len();
        let all = &mut self.octets[..];
        all[self.count..end].copy_from_slice(more);
        self.count = end;
    }
}
