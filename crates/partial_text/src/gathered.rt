//! The pieces of a text that is given to a writer, gathered to be written together.

ghost use Rattle.std.specs.Prelude.{◌≡◌, ◌<◌, ◌^◌, [], true, false, IfOk, IfErr, OnOk};
ghost use Rattle.partial_text.specs.Inner.TextGiven.{GivesBytes, text_given};

use crate::device::Device;
use crate::fault::OutcomeError;
use crate::writing::write_text;
use std::alloc::{AllocError, Global};
use std::io::Write;
use std::marker::Model;

/// How many bytes are gathered before they are written.
const ROOM: usize = 65_536;

/// What was given of a text and isn't written yet. Its room is taken before the first byte is written, so that a
/// refused allocation leaves nothing half written. Once a write has failed, nothing more is written.
#[derive(Drop)]
pub(crate) struct Gathered {
    bytes: Vec<u8>,
}

impl Model for Gathered {
    ghost use Rattle.std.specs.Prelude.{ℕ, List};

    ghost Value = { List ℕ };

    ghost view = { λ g. g.bytes.items };
}

/// Writes the bytes, unless a write has failed before.
fn put<W: Write>(bytes: &[u8], writer: &mut Device<W>)
    ensures told { GivesBytes (text_given W.contents [] writer.old) bytes.now (text_given W.contents [] writer.new) }
    ensures stopped { writer.old.failed ≡ true → writer.new ≡ writer.old }
{
    if !writer.failed() {
        let _kept_by_the_device = write_text(bytes, writer);
    }
}

impl Gathered {
    /// Takes the room. Nothing is gathered.
    pub(crate) fn new(alloc: Global) -> Result<Gathered, AllocError>
        ensures { IfOk result (λ gathered. gathered ≡ []) }
    {
        Ok(Gathered {
            bytes: Vec::with_capacity(alloc, ROOM)?,
        })
    }

    /// Takes the bytes: gathers them, and writes what is gathered when there is no room for them.
    #[inline(always)]
    pub(crate) fn tell<W: Write>(&mut self, writer: &mut Device<W>, bytes: &[u8])
        ensures { GivesBytes (text_given W.contents self.old writer.old) bytes.now
            (text_given W.contents self.new writer.new) }
    {
        self.make_room(writer, bytes.len());
        if self.bytes.extend_from_slice(bytes).is_err() {
            self.write_through(writer, bytes);
        }
    }

    // Takes bytes that can't be gathered: writes what is gathered, and then them.
    #[inline(never)]
    fn write_through<W: Write>(&mut self, writer: &mut Device<W>, bytes: &[u8])
        ensures { GivesBytes (text_given W.contents self.old writer.old) bytes.now
            (text_given W.contents self.new writer.new) }
    {
        self.hand_on(writer);
        put(bytes, writer);
    }

    // Writes what is gathered when there is no room for so many bytes more.
    #[inline(always)]
    fn make_room<W: Write>(&mut self, writer: &mut Device<W>, count: usize)
        requires { count < 2 ^ 63 }
        ensures { GivesBytes (text_given W.contents self.old writer.old) [] (text_given W.contents self.new writer.new) }
    {
        if self.bytes.len() + count > ROOM {
            self.hand_on(writer);
        }
    }

    // Writes what is gathered.
    #[inline(never)]
    fn hand_on<W: Write>(&mut self, writer: &mut Device<W>)
        ensures told { GivesBytes (text_given W.contents self.old writer.old) [] (text_given W.contents self.new writer.new) }
        ensures empty { self.new ≡ [] }
    {
        put(&self.bytes, writer);
        self.bytes.clear();
    }

    /// Writes what is left, and says whether a write has failed.
    ///
    /// # Errors
    ///
    /// `Write` when one has. A part of the text from its front has been written then.
    pub(crate) fn end<W: Write>(mut self, writer: &mut Device<W>) -> Result<(), OutcomeError>
        ensures told { GivesBytes (text_given W.contents self writer.old) [] (text_given W.contents [] writer.new) }
        ensures ok { OnOk result (writer.new.failed ≡ false) }
        ensures fault { IfErr result (λ error. (error ≡ OutcomeError.Write) × (writer.new.failed ≡ true)) }
    {
        self.hand_on(writer);
        if writer.failed() {
            return Err(OutcomeError::Write);
        }
        Ok(())
    }
}
