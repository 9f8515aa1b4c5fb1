//! Pictures for terminals.

use super::examples::{drawn, lost_exchange_plan};
use partial_picture::{Form, Window};
use std::test::Fail;

// Texts are results of functions, whose contents no proof of a test has to know.
fn table_of_lost_exchange() -> &'static str {
    "  step  port 0                        port 1
     0  load 0: 18                                           call 0 0: update 0 7
     1  load 3: 0
     2  load 2: 0
     3  add 4 3: 24
     4  store 24 18
     5  store 25 7
     6  store 26 0
     7                                load 0: 18             call 1 0: update 0 9
     8                                load 3: 0
     9                                load 2: 0
    10                                add 4 3: 27
    11                                store 27 18
    12                                store 28 9
    13                                store 29 0
    14                                exchange 0 18 27: won  applied 0 port 1 component 0 value 9 stamp 27; \
call 1 0: applied 27 place 0
    15  exchange 0 18 24: lost to 27                         call 0 0: lost 27 place 0
"
}

#[test]
fn lost_exchange(rt: HostRuntime) -> Result<(), Fail> {
    let text = drawn(rt.alloc(), Form::Table, Window::Whole, lost_exchange_plan())?;
    assert_eq!(rt; text.as_str(), table_of_lost_exchange());
    Ok(())
}

fn reads_and_empty_scans() -> &'static [u8] {
    b"sizes 2 4 8 64\ninitial 10 20\nport read 1; scan; read 7; read 0; scan\nsteps rest\n"
}

// Windows of their picture, and the table of each.
fn their_tables() -> [(Window, &'static str); 2] {
    [
        (
            Window::Whole,
            "  step  port 0
     0  load 1: 21   call 0 0: read 1
     1  load 22: 20  call 0 0: read 20 21 prefix 0
     -  call 0 1: scan: scanned prefix 0 collects 0 borrowed -; call 0 2: read 7: refused 7
     2  load 0: 18   call 0 3: read 0
     3  load 19: 10  call 0 3: read 10 18 prefix 0
     -  call 0 4: scan: scanned prefix 0 collects 0 borrowed -
",
        ),
        (
            Window::Steps { first: 1, last: 2 },
            "  step  port 0
     1  load 22: 20  call 0 0: read 20 21 prefix 0
     -  call 0 1: scan: scanned prefix 0 collects 0 borrowed -; call 0 2: read 7: refused 7
     2  load 0: 18   call 0 3: read 0
",
        ),
    ]
}

// Calls without a step have lines of their own, also after the last step, and a call that goes on beyond the
// window isn't shown to begin or to end in it.
#[test]
fn calls_between_steps(rt: HostRuntime) -> Result<(), Fail> {
    for (window, wanted) in their_tables() {
        let text = drawn(rt.alloc(), Form::Table, window, reads_and_empty_scans())?;
        assert_eq!(rt; text.as_str(), wanted);
    }
    Ok(())
}
