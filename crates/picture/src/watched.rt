//! A reader that remembers whether it has read a carriage return.

use std::io;
use std::io::Read;

/// A reader, and whether a carriage return was among the bytes that it has read.
#[derive(Drop)]
pub struct Watched<D> {
    inner: D,
    has_return: bool,
}

impl<D> Watched<D> {
    /// Wraps a reader that has read nothing.
    pub fn new(inner: D) -> Watched<D> {
        Watched {
            inner,
            has_return: false,
        }
    }

    /// Whether it has read a carriage return.
    pub fn has_return(&self) -> bool {
        self.has_return
    }
}

impl<D: Read> Read for Watched<D> {
    fn read(&mut self, buf: &mut [u8]) -> io::Result<usize> {
        let count = self.inner.read(buf)?;
        self.has_return = self.has_return || buf[..count].contains(&b'\r');
        Ok(count)
    }
}
