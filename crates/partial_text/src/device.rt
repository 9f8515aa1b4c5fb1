//! A reader or a writer that remembers whether it has failed, and counts its reads.

ghost use Rattle.std.specs.Prelude.{◌≡◌, ℕ, ◌+◌, ◌-◌, ◌^◌, ◌≤◌, ◌<◌, min, true, false, length, take, Some, None, IfSome, IfNone, IsNone, MatchOption};
ghost use Rattle.std.specs.Io.KnownBytes.{Keeps, Appends, Consumes, IsAtEnd};

use std::io::{Read, Write};
use std::marker::Model;

/// A reader or a writer, whether one of its calls has failed, and how many reads it was asked for.
#[derive(Drop)]
pub struct Device<D> {
    inner: D,
    failed: bool,
    reads: u64,
}

impl<D> Model for Device<D> {
    ghost use Rattle.partial_text.specs.DeviceView.{DeviceView};

    ghost Value = { DeviceView D };

    ghost view = { λ d. record { inner = d.inner; failed = d.failed; reads = d.reads } };
}

impl<D> Device<D> {
    /// Wraps a reader or a writer. None of its calls counts as failed.
    pub fn new(inner: D) -> Device<D>
        ensures { result ≡ record { inner = inner; failed = false; reads = 0 } }
    {
        Device {
            inner,
            failed: false,
            reads: 0,
        }
    }

    /// Whether a read or a write has failed, or a write has taken 0 bytes.
    pub fn failed(&self) -> bool
        ensures { result ≡ self.now.failed }
    {
        let Device { failed, .. } = self;
        *failed
    }

    /// How many reads the inner device was asked for, failed ones included. The count stays at 2^64 - 1.
    pub fn reads(&self) -> u64
        ensures { result ≡ self.now.reads }
    {
        let Device { reads, .. } = self;
        *reads
    }

    /// Returns the inner device.
    pub fn into_inner(self) -> D
        ensures { result ≡ self.inner }
    {
        self.inner
    }
}

impl<R: Read> Device<R> {
    /// Reads some bytes and returns how many, which is 0 only at the end. Returns `None` when the read
    /// fails.
    pub(crate) fn read(&mut self, buffer: &mut [u8]) -> Option<usize>
        requires { 0 < length buffer.old }
        ensures bytes { MatchOption result (self.new.failed ≡ true)
            (λ n. (n ≤ length buffer.new) × (self.new.failed ≡ self.old.failed)
            × Consumes (R.remaining self.old.inner) (R.remaining self.new.inner) (take n buffer.new)
            × (n ≡ 0 → IsAtEnd (R.remaining self.new.inner))) }
        ensures counted { self.new.reads ≡ min (self.old.reads + 1) (2 ^ 64 - 1) }
    {
        self.reads = self.reads.saturating_add(1);
        match self.inner.read(buffer) {
            Ok(count) => Some(count),
            Err(_) => {
                self.failed = true;
                None
            }
        }
    }
}

impl<W: Write> Device<W> {
    /// Writes some bytes from the front and returns how many. Returns `None` when the write fails or takes
    /// 0 bytes.
    pub(crate) fn write(&mut self, bytes: &[u8]) -> Option<usize>
        ensures bytes { MatchOption result
            ((self.new.failed ≡ true) × Keeps (W.contents self.old.inner) (W.contents self.new.inner))
            (λ n. (0 < n) × (n ≤ length bytes.now) × (self.new.failed ≡ self.old.failed)
            × Appends (W.contents self.old.inner) (W.contents self.new.inner) (take n bytes.now)) }
    {
        match self.inner.write(bytes) {
            Ok(count) if 0 < count => Some(count),
            _ => {
                self.failed = true;
                None
            }
        }
    }
}
