//! Outcomes that were worked out by hand: each is lawful, as it comes of a plan of `replay_tests`.

use super::rows::{called, first_scan, read, scan, scanned, update, update_if};
use partial_model::{Answer, Applied, Called, Note, Refused};
use std::alloc::{AllocError, Global};

/// A scan of both components, which saw no update.
pub(super) fn whole_scan(alloc: Global, collects: u32) -> Result<[Called; 1], AllocError> {
    let seen = scanned(alloc, &[10, 20], collects, None)?;
    Ok([first_scan(alloc, 0, &[0, 1], 0, seen, 0)?])
}

/// With the stamp of the update in its answer and in that of the read.
pub(super) fn write_then_read(stamp: u64) -> [Called; 2] {
    let wrote = Answer::Applied { stamp };
    let seen = Answer::Read { value: 7, stamp };
    [
        called(0, 0, update(0, 7), (0, 1), wrote, Some(Note::Wrote(0))),
        called(0, 1, read(0), (1, 1), seen, Some(Note::Saw(1))),
    ]
}

/// The entry of the exchange that was won.
pub(super) const EXCHANGED: [Applied; 1] = [Applied {
    port: 1,
    component: 0,
    value: 9,
    stamp: 27,
}];

/// The update whose exchange came too late, with the length at which it began.
pub(super) fn loser(began: usize, answer: Answer, note: Note) -> Called {
    called(0, 0, update(0, 7), (began, 1), answer, Some(note))
}

/// The update whose exchange was won.
pub(super) fn winner() -> Called {
    called(
        1,
        0,
        update(0, 9),
        (0, 1),
        Answer::Applied { stamp: 27 },
        Some(Note::Wrote(0)),
    )
}

/// The entries after a borrowed view.
pub(super) const BORROWED: [Applied; 2] = [
    Applied {
        port: 1,
        component: 0,
        value: 5,
        stamp: 26,
    },
    Applied {
        port: 1,
        component: 0,
        value: 6,
        stamp: 32,
    },
];

/// The scan that takes the view of record 32, with its value and its prefix.
pub(super) fn borrowed_view(
    alloc: Global,
    value: u64,
    prefix: usize,
) -> Result<[Called; 3], AllocError> {
    let seen = scanned(alloc, &[value], 3, Some(32))?;
    let scan = first_scan(alloc, 0, &[0], 2, seen, prefix)?;
    let first = Answer::Applied { stamp: 26 };
    let second = Answer::Applied { stamp: 32 };
    Ok([
        scan,
        called(1, 0, update(0, 5), (0, 1), first, Some(Note::Wrote(0))),
        called(1, 1, update(0, 6), (1, 2), second, Some(Note::Wrote(1))),
    ])
}

/// An update and a scan of a component that isn't there, with the cause of the scan's refusal.
pub(super) fn component_refused(alloc: Global, cause: Refused) -> Result<[Called; 2], AllocError> {
    let scan = scan(alloc, &[0, 2])?;
    let absent = Answer::Refused {
        cause: Refused::Component,
    };
    Ok([
        called(0, 0, update(2, 1), (0, 0), absent, None),
        called(0, 1, scan, (0, 0), Answer::Refused { cause }, None),
    ])
}

/// A conditional update that finds another stamp at its exchange, and the stamp that its answer names.
pub(super) fn changed_at_exchange(by: u64) -> [Called; 2] {
    let changed = Answer::Changed { by };
    let won = Answer::Applied { stamp: 27 };
    [
        called(
            0,
            0,
            update_if(0, 18, 7),
            (0, 1),
            changed,
            Some(Note::Saw(1)),
        ),
        called(1, 0, update_if(0, 18, 9), (0, 1), won, Some(Note::Wrote(0))),
    ]
}
