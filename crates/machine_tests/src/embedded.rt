//! The machine driven over a plain list of words, which other ports change between its steps.

ghost use Rattle.std.specs.Prelude.{◌≡◌, OnOk, IsTrue};
ghost use Rattle.partial_embedded.specs.Embedded.{ArePositions, ViewGoesTogether, AreRowsFor};

use partial_embedded::{Embedded, Rows};
use partial_words::{Sizes, Step};
use std::alloc::{AllocError, Global};
use std::process::Abort;
use std::test::Fail;

// The result of an embedded scan of a memory with two components.
#[derive(Debug, Drop)]
struct Scanned {
    steps: Vec<Step>,
    collects: u32,
    borrowed: Option<u64>,
    view: u64,
    values: [u64; 2],
}

// The words of a memory of two components that opens with the values 5 and 7.
fn opened(alloc: Global, sizes: Sizes) -> Result<Vec<u64>, AllocError>
    requires { sizes.m ≡ 2 }
{
    let mut words = Vec::new(alloc);
    for word in 0..sizes.total() {
        words.push(sizes.opening_word(&[5, 7], word))?;
    }
    Ok(words)
}

// Whether the list names components, one at least and no more than there are.
fn are_positions(sizes: Sizes, indices: &[u32]) -> bool
    ensures { IsTrue result → ArePositions sizes indices.now }
{
    !indices.is_empty()
        && indices.len() <= sizes.m() as usize
        && indices.iter().all(|component| *component < sizes.m())
}

// Makes the changes of other ports that come before the step with this number. A change is the number of
// the step before which it comes, counted from 0, the word that it sets, and the new value.
fn change(rt: &impl Abort, words: &mut [u64], changes: &[(usize, u32, u64)], step: usize) {
    for (before, word, value) in changes {
        let at = *word as usize;
        assert!(rt; at < words.len());
        if *before == step {
            words[at] = *value;
        }
    }
}

// Makes the steps of an embedded scan on the words, one after another.
fn drive(
    rt: &impl Abort,
    alloc: Global,
    words: &mut [u64],
    scan: &mut Embedded,
    rows: &mut Rows,
    indices: &[u32],
    changes: &[(usize, u32, u64)],
) -> Result<Vec<Step>, AllocError>
    requires { ViewGoesTogether indices.now (scan.old, rows.old) }
    ensures { OnOk result (AreRowsFor scan.old.sizes rows.new) }
{
    let mut steps = Vec::new(alloc);
    while let Some(step) = scan.step(rows, indices) {
        change(rt, words, changes, steps.len());
        assert!(rt; (step.word() as usize) < words.len());
        let x = step.perform(words);
        assert!(rt; scan.may_answer(x));
        scan.answer(rows, indices, x);
        steps.push(step)?;
    }
    Ok(steps)
}

// Makes an embedded scan with these buffers, from its first step to its last.
fn scan_into(
    rt: &impl Abort,
    alloc: Global,
    rows: &mut Rows,
    sizes: Sizes,
    indices: &[u32],
    shares: bool,
    changes: &[(usize, u32, u64)],
) -> Result<Scanned, AllocError>
    requires components { sizes.m ≡ 2 }
    requires rows { AreRowsFor sizes rows.old }
    ensures { OnOk result (AreRowsFor sizes rows.new) }
{
    let mut words = opened(alloc, sizes)?;
    assert!(rt; are_positions(sizes, indices));
    let mut scan = Embedded::new(sizes, shares);
    let steps = drive(rt, alloc, &mut words, &mut scan, rows, indices, changes)?;
    Ok(Scanned {
        steps,
        collects: scan.collects(),
        borrowed: scan.borrowed(),
        view: scan.view(),
        values: [rows.value(0), rows.value(1)],
    })
}

// Makes an embedded scan of a memory that opens with the values 5 and 7. Its pool begins at word 18: the
// component words open with 18 and 21, and words 19 and 22 are the values of those records.
fn scan(
    rt: &impl Abort,
    alloc: Global,
    indices: &[u32],
    shares: bool,
    changes: &[(usize, u32, u64)],
) -> Result<Scanned, Fail> {
    let sizes = Sizes::new(2, 4, 8, 64)?;
    let mut rows = Rows::new(alloc, sizes)?;
    Ok(scan_into(rt, alloc, &mut rows, sizes, indices, shares, changes)?)
}

// The scan has to have loaded these words and no others, and to have reached so many collects, to the view of that
// record, if to one, and to these values.
fn assert_scanned(
    rt: &impl Abort,
    scanned: &Scanned,
    loads: &[u32],
    collects: u32,
    borrowed: Option<u64>,
    values: [u64; 2],
) {
    assert_eq!(rt; scanned.steps.len(), loads.len());
    for (step, word) in scanned.steps.iter().zip(loads) {
        assert_eq!(rt; *step, Step::Load(*word));
    }
    assert_eq!(rt; scanned.collects, collects);
    assert_eq!(rt; scanned.borrowed, borrowed);
    assert_eq!(rt; scanned.values, values);
}

// One position and a view with all components: 9 steps, and `r (r + 2) + 2 m + 2` is 9.
#[test]
fn most_steps_of_one_position(rt: HostRuntime) -> Result<(), Fail> {
    let changes = [
        (1, 1, 24),
        (2, 1, 27),
        (2, 29, 30),
        (2, 30, 2),
        (2, 32, 12),
        (2, 33, 1),
        (2, 34, 13),
    ];
    let scanned = scan(&rt, rt.alloc(), &[1], false, &changes)?;
    assert_scanned(
        &rt,
        &scanned,
        &[1, 1, 1, 29, 30, 31, 32, 33, 34],
        3,
        Some(27),
        [12, 13],
    );
    Ok(())
}

// Component 0 changes between the first two collects, component 1 between the next two and again between
// the last two. The fourth collect ends there, and its record's view has one pair.
#[test]
fn third_record_in_the_last_collect(rt: HostRuntime) -> Result<(), Fail> {
    let changes = [
        (2, 0, 24),
        (4, 1, 27),
        (6, 1, 30),
        (6, 32, 33),
        (6, 33, 1),
        (6, 34, 1),
        (6, 35, 6),
    ];
    let scanned = scan(&rt, rt.alloc(), &[0, 1], false, &changes)?;
    assert_eq!(rt; scanned.view, 33);
    assert_scanned(
        &rt,
        &scanned,
        &[0, 1, 0, 1, 0, 1, 0, 1, 32, 33, 34, 35],
        4,
        Some(30),
        [0, 6],
    );
    Ok(())
}

// A scan that shares loads the values of its records when two collects are equal, as every scan does.
#[test]
fn shares_nothing_without_a_third_record(rt: HostRuntime) -> Result<(), Fail> {
    let scanned = scan(&rt, rt.alloc(), &[1], true, &[])?;
    assert_scanned(&rt, &scanned, &[1, 1, 22], 2, None, [0, 7]);
    Ok(())
}

// The third record has the empty view, which has no words.
#[test]
fn borrowed_empty_view(rt: HostRuntime) -> Result<(), Fail> {
    let changes = [(1, 0, 24), (2, 0, 27)];
    let scanned = scan(&rt, rt.alloc(), &[0], false, &changes)?;
    assert_eq!(rt; scanned.view, 0);
    assert_scanned(&rt, &scanned, &[0, 0, 0, 29], 3, Some(27), [0, 0]);
    Ok(())
}

// One component at two positions, with a new record between its two loads of the first collect: the second
// collect shows a change at the first of them only, and the third one none.
#[test]
fn repeated_position(rt: HostRuntime) -> Result<(), Fail> {
    let changes = [(1, 25, 9), (1, 1, 24)];
    let scanned = scan(&rt, rt.alloc(), &[1, 1], false, &changes)?;
    assert_scanned(&rt, &scanned, &[1, 1, 1, 1, 1, 1, 25, 25], 3, None, [0, 9]);
    Ok(())
}

// The second scan with the same buffers uses nothing of what the first one noted: the change of a position
// that changed twice in the first scan counts as its first one.
#[test]
fn buffers_used_again(rt: HostRuntime) -> Result<(), Fail> {
    let sizes = Sizes::new(2, 4, 8, 64)?;
    let mut rows = Rows::new(rt.alloc(), sizes)?;
    let twice = [(1, 0, 24), (2, 0, 27)];
    let first = scan_into(&rt, rt.alloc(), &mut rows, sizes, &[0], true, &twice)?;
    assert_eq!(rt; first.borrowed, Some(27));
    let once = [(1, 25, 9), (1, 0, 24)];
    let second = scan_into(&rt, rt.alloc(), &mut rows, sizes, &[0], true, &once)?;
    assert_scanned(&rt, &second, &[0, 0, 0, 25], 3, None, [9, 0]);
    Ok(())
}
