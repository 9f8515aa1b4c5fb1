//! The readers of plans.

use crate::progress::Progress;
use std::io;
use std::io::Read;

/// A source of bytes that was opened.
#[derive(Drop)]
pub enum Opened<F, I> {
    /// A file.
    File(F),
    /// Standard input.
    Input(I),
}

impl<F: Read, I: Read> Read for Opened<F, I> {
    fn read(&mut self, buf: &mut [u8]) -> io::Result<usize> {
        match self {
            Opened::File(file) => file.read(buf),
            Opened::Input(input) => input.read(buf),
        }
    }
}

/// A reader that says when a plan was read to its end, if somebody is to know.
#[derive(Drop)]
pub struct Reader<'a, D> {
    inner: D,
    progress: Option<&'a Progress>,
}

impl<'a, D> Reader<'a, D> {
    /// Wraps a reader that has read nothing.
    pub fn new(inner: D, progress: Option<&'a Progress>) -> Reader<'a, D> {
        Reader { inner, progress }
    }
}

impl<D: Read> Read for Reader<'_, D> {
    fn read(&mut self, buf: &mut [u8]) -> io::Result<usize> {
        let count = self.inner.read(buf)?;
        if let (0, Some(progress)) = (count, self.progress) {
            progress.begin();
        }
        Ok(count)
    }
}
