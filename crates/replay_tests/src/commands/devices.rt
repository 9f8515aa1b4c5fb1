//! Writers that fail.

ghost use Rattle.std.specs.Prelude.{◌≡◌, false};

use super::rows::{Row, borrowed_view, write_then_read};
use partial_cmd::{Verb, execute};
use partial_replay::Device;
use std::alloc::Global;
use std::io;
use std::io::Write;
use std::process::Abort;
use std::sync::Wait;
use std::test::Fail;
use std::thread::Threads;

/// Takes so many bytes, one a write, and then takes none or fails.
#[derive(Drop)]
struct Filling {
    taken: Vec<u8>,
    room: usize,
    takes_none: bool,
}

impl Write for Filling {
    fn write(&mut self, buf: &[u8]) -> io::Result<usize> {
        match buf {
            [byte, ..] if self.taken.len() < self.room => {
                self.taken.push(*byte)?;
                Ok(1)
            }
            _ if self.takes_none => Ok(0),
            _ => Err(io::Error::from(io::ErrorKind::Other)),
        }
    }

    fn flush(&mut self) -> io::Result<()> {
        Ok(())
    }
}

fn filled_to(alloc: Global, room: usize, takes_none: bool) -> Device<Filling>
    ensures { result.failed ≡ false }
{
    Device::new(Filling {
        taken: Vec::new(alloc),
        room,
        takes_none,
    })
}

/// The number of the fault of a command whose writer has room for so many bytes, and what the writer has taken.
fn filled<R: Threads + Wait + Sync>(
    rt: &R,
    alloc: Global,
    verb: Verb,
    plan: &[u8],
    room: usize,
    takes_none: bool,
) -> (Option<u8>, Vec<u8>) {
    let mut reader = Device::new(plan);
    let mut writer = filled_to(alloc, room, takes_none);
    let given = execute(rt, alloc, verb, &mut reader, &mut writer);
    let code = given.err().map(|fault| fault.code());
    (code, writer.into_inner().taken)
}

/// Judges a command whose writer has room for so many bytes of the text, which is less than all of it.
fn judge_writer<R: Threads + Wait + Sync + Abort>(
    rt: &R,
    alloc: Global,
    verb: Verb,
    row: Row,
    room: usize,
    takes_none: bool,
) {
    let (name, plan, expected) = row;
    let (code, taken) = filled(rt, alloc, verb, plan, room, takes_none);
    assert_eq!(rt; code, Some(12), "{name} after {room} bytes");
    assert_eq!(rt; Some(taken.as_slice()), expected.get(..room));
}

// A check writes its one line, or a part of it from the front.
#[test]
fn failing_writer_of_a_verdict(rt: HostRuntime) -> Result<(), Fail> {
    let (name, plan, _) = write_then_read();
    let line = b"lawful\n";
    for room in 0..line.len() {
        let row: Row = (name, plan, line);
        judge_writer(&rt, rt.alloc(), Verb::Check, row, room, false);
    }
    Ok(())
}

#[test]
fn failing_writer(rt: HostRuntime) -> Result<(), Fail> {
    for row in [write_then_read(), borrowed_view()] {
        let (_, _, expected) = row;
        for takes_none in [false, true] {
            for room in 0..expected.len() {
                judge_writer(&rt, rt.alloc(), Verb::Replay, row, room, takes_none);
            }
        }
    }
    Ok(())
}
