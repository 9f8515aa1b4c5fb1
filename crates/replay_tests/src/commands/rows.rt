//! Plans whose outcomes were worked out by hand.

/// A name, a plan, and the text of its outcome.
pub(super) type Row = (&'static str, &'static [u8], &'static [u8]);

const WRITE_THEN_READ: Row = (
    "write_then_read",
    b"sizes 2 4 8 64
initial 10 20
port update 0 7; read 0
steps rest
",
    b"applied 0 port 0 component 0 value 7 stamp 24
call 0 0 applied 24 place 0 steps 8 span 0 1
call 0 1 read 7 24 prefix 1 steps 2 span 1 1
values 7 20
total 10
",
);

const WHOLE_SCAN: Row = (
    "whole_scan",
    b"sizes 2 4 8 64
initial 10 20
port scan 0 1
steps rest
",
    b"call 0 0 scanned 10 20 prefix 0 collects 2 borrowed - steps 13 span 0 0
values 10 20
total 13
",
);

const BORROWED_VIEW: Row = (
    "borrowed_view",
    b"sizes 2 4 8 64
initial 10 20
port scan 0
port update 0 5; update 0 6
steps 0*6 1*17 0*1 1*17 0*6
",
    b"applied 0 port 1 component 0 value 5 stamp 26
applied 1 port 1 component 0 value 6 stamp 32
call 0 0 scanned 5 prefix 1 collects 3 borrowed 32 steps 13 span 0 2
call 1 0 applied 26 place 0 steps 17 span 0 1
call 1 1 applied 32 place 1 steps 17 span 1 2
values 6 20
total 47
",
);

/// The rows.
const ROWS: [Row; 25] = [
    WRITE_THEN_READ,
    (
        "lost_exchange",
        b"sizes 2 4 8 64
initial 10 20
port update 0 7
port update 0 9
steps 0*7 1*8 0*1
",
        b"applied 0 port 1 component 0 value 9 stamp 27
call 0 0 lost 27 place 0 steps 8 span 0 1
call 1 0 applied 27 place 0 steps 8 span 0 1
values 9 20
total 16
",
    ),
    // A body that loads the record after the active set finds the one with stamp 24, and is applied.
    (
        "old_loaded_first",
        b"sizes 2 4 8 64
initial 10 20
port update 0 7
port update 0 9
steps 0*1 1*8 0*7
",
        b"applied 0 port 1 component 0 value 9 stamp 24
call 0 0 lost 24 place 0 steps 8 span 0 1
call 1 0 applied 24 place 0 steps 8 span 0 1
values 9 20
total 16
",
    ),
    (
        "two_components",
        b"sizes 2 4 8 64
initial 10 20
port update 0 7
port update 1 9
steps 0*7 1*8 0*1
",
        b"applied 0 port 1 component 1 value 9 stamp 27
applied 1 port 0 component 0 value 7 stamp 24
call 0 0 applied 24 place 1 steps 8 span 0 2
call 1 0 applied 27 place 0 steps 8 span 0 1
values 7 9
total 16
",
    ),
    (
        "pool_spent",
        b"sizes 2 4 8 9
initial 10 20
port update 0 7; update 0 8; update 1 9; read 0
steps rest
",
        b"applied 0 port 0 component 0 value 7 stamp 24
call 0 0 applied 24 place 0 steps 8 span 0 1
call 0 1 refused 9 steps 4 span 1 1
call 0 2 refused 9 steps 0 span 1 1
call 0 3 read 7 24 prefix 1 steps 2 span 1 1
values 7 20
total 14
",
    ),
    (
        "greatest_value",
        b"sizes 2 4 8 64
initial 10 20
port update 1 18446744073709551615; read 1
steps rest
",
        b"applied 0 port 0 component 1 value 18446744073709551615 stamp 24
call 0 0 applied 24 place 0 steps 8 span 0 1
call 0 1 read 18446744073709551615 24 prefix 1 steps 2 span 1 1
values 10 18446744073709551615
total 10
",
    ),
    (
        "conditional",
        b"sizes 2 4 8 64
initial 10 20
port updateif 0 18 7; updateif 0 18 8; updateif 0 24 9
steps rest
",
        b"applied 0 port 0 component 0 value 7 stamp 24
applied 1 port 0 component 0 value 9 stamp 27
call 0 0 applied 24 place 0 steps 8 span 0 1
call 0 1 changed 24 prefix 1 steps 1 span 1 1
call 0 2 applied 27 place 1 steps 8 span 1 2
values 9 20
total 17
",
    ),
    (
        "component_refused",
        b"sizes 2 4 8 64
initial 10 20
port update 2 1; scan 0 2
steps rest
",
        b"call 0 0 refused 7 steps 0 span 0 0
call 0 1 refused 7 steps 0 span 0 0
values 10 20
total 0
",
    ),
    (
        "read_component_refused",
        b"sizes 2 4 8 64
initial 10 20
port update 2 1; read 2
steps rest
",
        b"call 0 0 refused 7 steps 0 span 0 0
call 0 1 refused 7 steps 0 span 0 0
values 10 20
total 0
",
    ),
    (
        "changed_at_exchange",
        b"sizes 2 4 8 64
initial 10 20
port updateif 0 18 7
port updateif 0 18 9
steps 0*7 1*8 0*1
",
        b"applied 0 port 1 component 0 value 9 stamp 27
call 0 0 changed 27 prefix 1 steps 8 span 0 1
call 1 0 applied 27 place 0 steps 8 span 0 1
values 9 20
total 16
",
    ),
    (
        "conditional_pool_spent",
        b"sizes 2 4 8 9
initial 10 20
port updateif 0 18 7; updateif 0 18 8; updateif 0 24 8; updateif 0 18 9
steps rest
",
        b"applied 0 port 0 component 0 value 7 stamp 24
call 0 0 applied 24 place 0 steps 8 span 0 1
call 0 1 changed 24 prefix 1 steps 1 span 1 1
call 0 2 refused 9 steps 4 span 1 1
call 0 3 refused 9 steps 0 span 1 1
values 7 20
total 13
",
    ),
    (
        "conditional_component_refused",
        b"sizes 2 4 8 64
initial 10 20
port updateif 2 18 7
steps rest
",
        b"call 0 0 refused 7 steps 0 span 0 0
values 10 20
total 0
",
    ),
    WHOLE_SCAN,
    (
        "empty_scan",
        b"sizes 2 4 8 64
initial 10 20
port scan
steps rest
",
        b"call 0 0 scanned prefix 0 collects 0 borrowed - steps 0 span 0 0
values 10 20
total 0
",
    ),
    (
        "repeated_position",
        b"sizes 3 4 8 64
initial 10 20 30
port scan 0 0 1
steps rest
",
        b"call 0 0 scanned 10 10 20 prefix 0 collects 2 borrowed - steps 17 span 0 0
values 10 20 30
total 17
",
    ),
    (
        "value_set_back",
        b"sizes 2 4 8 64
initial 10 20
port scan 0
port update 0 10; update 0 10
steps 0*6 1*34 0*4
",
        b"applied 0 port 1 component 0 value 10 stamp 26
applied 1 port 1 component 0 value 10 stamp 32
call 0 0 scanned 10 prefix 0 collects 3 borrowed - steps 10 span 0 2
call 1 0 applied 26 place 0 steps 17 span 0 1
call 1 1 applied 32 place 1 steps 17 span 1 2
values 10 20
total 44
",
    ),
    (
        "four_collects",
        b"sizes 2 4 8 64
initial 10 20
port scan 0 1
port update 0 5; update 1 6
steps 0*8 1*23 0*2 1*23 0*7
",
        b"applied 0 port 1 component 0 value 5 stamp 27
applied 1 port 1 component 1 value 6 stamp 35
call 0 0 scanned 5 6 prefix 2 collects 4 borrowed - steps 17 span 0 2
call 1 0 applied 27 place 0 steps 23 span 0 1
call 1 1 applied 35 place 1 steps 23 span 1 2
values 5 6
total 63
",
    ),
    BORROWED_VIEW,
    // A body that copies the view it borrows makes more steps in call 2 0.
    (
        "borrowed_chain",
        b"sizes 2 4 8 64
initial 10 20
port scan 1
port scan 0
port update 0 7
port update 0 5; update 1 8; update 1 9
steps 0*5 1*6 3*25 1*1 2*11 0*4 3*23 2*2 3*20 2*7 1*6
",
        b"applied 0 port 3 component 0 value 5 stamp 28
applied 1 port 3 component 1 value 8 stamp 36
applied 2 port 3 component 1 value 9 stamp 42
applied 3 port 2 component 0 value 7 stamp 48
call 0 0 scanned 20 prefix 0 collects 2 borrowed - steps 9 span 0 1
call 1 0 scanned 5 prefix 1 collects 3 borrowed 48 steps 13 span 0 4
call 2 0 applied 48 place 3 steps 20 span 1 4
call 3 0 applied 28 place 0 steps 25 span 0 1
call 3 1 applied 36 place 1 steps 23 span 1 2
call 3 2 applied 42 place 2 steps 20 span 2 3
values 7 9
total 110
",
    ),
    // A body that shares the words after a record, in place of the view that it names, fails here.
    (
        "view_borrowed_twice",
        b"sizes 3 4 8 64
initial 10 20 30
port scan 0 1 2
port update 2 6; update 1 3; update 0 1; update 0 2
port update 1 4
port update 2 5
steps 0*10 1*29 0*3 3*11 1*29 3*3 2*11 1*29 2*3 1*29 2*7 3*8 0*12
",
        b"applied 0 port 1 component 2 value 6 stamp 32
applied 1 port 1 component 1 value 3 stamp 42
applied 2 port 1 component 0 value 1 stamp 52
applied 3 port 1 component 0 value 2 stamp 62
applied 4 port 2 component 1 value 4 stamp 72
applied 5 port 3 component 2 value 5 stamp 75
call 0 0 scanned 1 3 6 prefix 3 collects 3 borrowed 75 steps 25 span 0 6
call 1 0 applied 32 place 0 steps 29 span 0 1
call 1 1 applied 42 place 1 steps 29 span 1 2
call 1 2 applied 52 place 2 steps 29 span 2 3
call 1 3 applied 62 place 3 steps 29 span 3 4
call 2 0 applied 72 place 4 steps 21 span 2 5
call 3 0 applied 75 place 5 steps 22 span 1 6
values 2 4 5
total 184
",
    ),
    // A body that never publishes a list makes 9 steps in each of these updates.
    (
        "vacated_list",
        b"sizes 2 4 8 64
initial 10 20
port scan 0
port update 0 7; update 0 8
steps rest
",
        b"applied 0 port 1 component 0 value 7 stamp 26
applied 1 port 1 component 0 value 8 stamp 29
call 0 0 scanned 10 prefix 0 collects 2 borrowed - steps 9 span 0 0
call 1 0 applied 26 place 0 steps 14 span 0 1
call 1 1 applied 29 place 1 steps 11 span 1 2
values 8 20
total 34
",
    ),
    (
        "lost_list_exchange",
        b"sizes 2 4 8 64
initial 10 20
port scan 0
port update 0 7
port update 1 9; update 1 8
steps 0*9 1*8 2*14 rest
",
        b"applied 0 port 2 component 1 value 9 stamp 26
applied 1 port 1 component 0 value 7 stamp 29
applied 2 port 2 component 1 value 8 stamp 32
call 0 0 scanned 10 prefix 0 collects 2 borrowed - steps 9 span 0 0
call 1 0 applied 29 place 1 steps 14 span 0 2
call 2 0 applied 26 place 0 steps 14 span 0 1
call 2 1 applied 32 place 2 steps 11 span 2 3
values 7 8
total 48
",
    ),
    (
        "lists_spent",
        b"sizes 2 4 2 64
initial 10 20
port scan 0
port update 0 7; update 0 8
steps rest
",
        b"applied 0 port 1 component 0 value 7 stamp 20
applied 1 port 1 component 0 value 8 stamp 23
call 0 0 scanned 10 prefix 0 collects 2 borrowed - steps 9 span 0 0
call 1 0 applied 20 place 0 steps 10 span 0 1
call 1 1 applied 23 place 1 steps 9 span 1 2
values 8 20
total 28
",
    ),
    (
        "slots_spent",
        b"sizes 2 1 8 64
initial 10 20
port scan 0; scan 1; scan 1; update 1 5
steps rest
",
        b"applied 0 port 0 component 1 value 5 stamp 25
call 0 0 scanned 10 prefix 0 collects 2 borrowed - steps 9 span 0 0
call 0 1 refused 8 steps 4 span 0 0
call 0 2 refused 8 steps 0 span 0 0
call 0 3 applied 25 place 0 steps 14 span 0 1
values 10 5
total 27
",
    ),
    (
        "stopped_joiner",
        b"sizes 2 4 8 64
initial 10 20
port scan 0
port update 0 7
steps 0*4 1*9
",
        b"applied 0 port 1 component 0 value 7 stamp 26
call 0 0 unfinished steps 4 span 0 -
call 1 0 applied 26 place 0 steps 9 span 0 1
values 7 20
total 13
",
    ),
];

// The rows come as results, so that no proof of a test knows their texts.

pub(super) fn write_then_read() -> Row {
    WRITE_THEN_READ
}

pub(super) fn borrowed_view() -> Row {
    BORROWED_VIEW
}

/// All of them.
pub(super) fn rows() -> [Row; 25] {
    ROWS
}
