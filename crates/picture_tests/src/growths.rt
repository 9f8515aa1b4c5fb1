//! Allocations that are refused, one after another. The script that runs these tests says which.

use super::examples::borrowed_view_plan;
use partial_picture::{Fault, Form, Window, draw};
use partial_replay::Device;
use std::alloc::Global;
use std::io;
use std::io::Write;
use std::test::Fail;

/// What is written of a picture: how many bytes, a sum over them that knows their order, and whether they end so. It
/// asks for no memory.
#[derive(Drop)]
struct Written {
    wanted: &'static [u8],
    count: usize,
    sum: u64,
    ends: bool,
}

impl Write for Written {
    fn write(&mut self, buf: &[u8]) -> io::Result<usize> {
        self.count = self.count.saturating_add(buf.len());
        for byte in buf {
            self.sum = (self.sum ^ u64::from(*byte)).wrapping_mul(0x100_0000_01b3);
        }
        self.ends = buf.ends_with(self.wanted);
        Ok(buf.len())
    }

    fn flush(&mut self) -> io::Result<()> {
        Ok(())
    }
}

/// Why the picture of a window isn't drawn, if it isn't, and what is written of it, which may end with these bytes. The
/// window has two marks, two bars, an entry and an arrow.
fn drawn(alloc: Global, form: Form, wanted: &'static [u8]) -> (Option<Fault>, Written) {
    let mut plan = Device::new(borrowed_view_plan());
    let mut out = Device::new(Written {
        wanted,
        count: 0,
        sum: 0,
        ends: false,
    });
    let window = Window::Steps {
        first: 40,
        last: 41,
    };
    let given = draw(alloc, form, window, &mut plan, &mut out);
    (given.err(), out.into_inner())
}

/// What is written of that picture. When an allocation is refused, the fault is 6 and nothing is written, or a smaller
/// one serves as well: a list that is collected asks for room in advance, and then for what it needs.
fn draws(alloc: Global, form: Form, wanted: &'static [u8]) -> Result<Written, Fail> {
    match drawn(alloc, form, wanted) {
        (None, picture) => Ok(picture),
        (Some(fault), Written { count: 0, .. }) if fault.code() == 6 => Err(fault)?,
        (Some(_), _) => Err(Fail::from("a fault beside what is written")),
    }
}

// One growth at most is refused, so that one of the two drawings is made without a refusal.
#[test]
fn a_refused_growth_draws_nothing(rt: HostRuntime) -> Result<(), Fail> {
    let form = Form::Drawing { has_words: true };
    let first = draws(rt.alloc(), form, b"</svg>\n")?;
    let second = draws(rt.alloc(), form, b"</svg>\n")?;
    assert!(rt; first.ends && second.ends);
    assert!(rt; first.count == second.count && first.sum == second.sum);
    Ok(())
}

#[test]
fn a_refused_growth_writes_no_table(rt: HostRuntime) -> Result<(), Fail> {
    let wanted = b"  step  port 0      port 1
    40              exchange 0 26 32: won  applied 1 port 1 component 0 value 6 stamp 32; \
call 1 1: applied 32 place 1
    41  load 0: 32
";
    let table = draws(rt.alloc(), Form::Table, wanted)?;
    assert!(rt; table.ends && table.count == wanted.len());
    Ok(())
}
