//! Readers that return little at a time, fail, or never end.

use crate::texts::repeated;
use partial_text::{Cause, Device, Plan, PlanError};
use std::alloc::Global;
use std::io;
use std::io::Read;
use std::process::Abort;
use std::test::Fail;

// The text of a plan, which no proof of a test has to know.
fn text() -> &'static [u8] {
    b"sizes 2 4 8 64\ninitial 10 20\nport read 0\nsteps rest\n"
}

/// Returns at most so many bytes a read, over and over if it is endless, and fails at one read.
#[derive(Drop)]
struct Source<'a> {
    text: &'a [u8],
    step: usize,
    reads: u64,
    fails_at: u64,
    endless: bool,
}

impl<'a> Source<'a> {
    fn new(text: &'a [u8], step: usize) -> Source<'a> {
        Source {
            text,
            step,
            reads: 0,
            fails_at: u64::MAX,
            endless: false,
        }
    }
}

impl Read for Source<'_> {
    fn read(&mut self, buf: &mut [u8]) -> io::Result<usize> {
        self.reads = self.reads.saturating_add(1);
        if self.reads == self.fails_at {
            return Err(io::Error::from(io::ErrorKind::Other));
        }
        if self.endless {
            return Ok(self.step.min(buf.len()));
        }
        let count = self.step.min(buf.len()).min(self.text.len());
        let (front, rest) = self.text.split_at(count);
        for (to, from) in buf.iter_mut().zip(front) {
            *to = *from;
        }
        self.text = rest;
        Ok(count)
    }
}

#[test]
fn any_pieces(rt: HostRuntime) -> Result<(), Fail> {
    for step in 1..60 {
        let mut device = Device::new(Source::new(text(), step));
        let plan = Plan::read(rt.alloc(), &mut device)
            .ok()
            .ok_or("the text is a plan")?;
        assert_eq!(rt; plan.initial(), [10, 20].as_slice());
        assert!(rt; !device.failed());
    }
    Ok(())
}

#[test]
fn each_read_fails(rt: HostRuntime) -> Result<(), Fail> {
    for fails_at in 1..text().len() as u64 + 2 {
        let mut source = Source::new(text(), 1);
        source.fails_at = fails_at;
        let mut device = Device::new(source);
        let given = Plan::read(rt.alloc(), &mut device).err();
        assert_eq!(rt; given, Some(PlanError::Read), "read {fails_at}");
        assert!(rt; device.failed());
        assert_eq!(rt; device.into_inner().reads, fails_at);
    }
    Ok(())
}

#[test]
fn fails_after_twenty_bytes(rt: HostRuntime) -> Result<(), Fail> {
    let mut source = Source::new(text(), 20);
    source.fails_at = 2;
    let mut device = Device::new(source);
    assert_eq!(rt;
        Plan::read(rt.alloc(), &mut device).err(),
        Some(PlanError::Read)
    );
    Ok(())
}

#[test]
fn never_ends(rt: HostRuntime) -> Result<(), Fail> {
    let size = PlanError::Line {
        line: 0,
        cause: Cause::Size,
    };
    for step in [1, 4096, 1_000_000] {
        let mut source = Source::new(text(), step);
        source.endless = true;
        let mut device = Device::new(source);
        assert_eq!(rt; Plan::read(rt.alloc(), &mut device).err(), Some(size));
        assert!(rt; device.into_inner().reads <= 4_194_306);
    }
    Ok(())
}

/// Judges that the text is refused for its size, or else that it is a plan.
fn judge_size(rt: &impl Abort, alloc: Global, text: &[u8], step: usize, is_refused: bool) {
    let given = Plan::read(alloc, &mut Device::new(Source::new(text, step))).err();
    let size = PlanError::Line {
        line: 0,
        cause: Cause::Size,
    };
    assert_eq!(rt; given.is_some(), is_refused, "{given:?}");
    assert!(rt; given.is_none() || given == Some(size));
}

#[test]
fn longest_text(rt: HostRuntime) -> Result<(), Fail> {
    let front = b"sizes 1 1 0 3\ninitial 0\nport\nsteps";
    let mut text = repeated(rt.alloc(), front, b" 0*10", 838_852, b" 0*123456\n")?;
    assert_eq!(rt; text.len(), 4_194_304);
    judge_size(&rt, rt.alloc(), &text, 1 << 20, false);
    text.push(b'\n')?;
    judge_size(&rt, rt.alloc(), &text, 1 << 20, true);
    Ok(())
}
