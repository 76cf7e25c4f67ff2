use std::alloc::Global;
use std::io;

/// Where commands come from, and where what came of them is printed.
pub trait Console {
    fn heap(&self) -> Global;

    /// The next line without its end, or nothing at the end of the input.
    fn read(&mut self) -> io::Result<Option<Vec<u8>>>;

    fn print(&mut self, text: &str) -> io::Result<()>;
}
