//! The machines, driven over a plain list of words, and refused allocations.

ghost use Rattle.std.specs.Prelude.{OnOk};
ghost use Rattle.partial_active.specs.Found.{AreFoundFor};
ghost use Rattle.partial_active.specs.GetSetAnswers.{SetGoesTogether};

use partial_active::{Found, GetSet, Join, Leave};
use partial_words::{Sizes, Step};
use std::alloc::{AllocError, Global};
use std::process::Abort;
use std::test::Fail;

// Words of a memory that are all 0, apart from these.
fn words_with(
    rt: &impl Abort,
    alloc: Global,
    sizes: Sizes,
    set: &[(u32, u64)],
) -> Result<Vec<u64>, AllocError> {
    let mut words = vec![in alloc; 0u64; sizes.total() as usize]?;
    for (word, value) in set {
        let at = *word as usize;
        assert!(rt; at < words.len());
        words[at] = *value;
    }
    Ok(words)
}

// Makes the steps of a getSet on the words, one after another.
fn drive(
    rt: &impl Abort,
    alloc: Global,
    words: &mut [u64],
    get: &mut GetSet,
    found: &mut Found,
) -> Result<Vec<Step>, AllocError>
    requires { SetGoesTogether (get.old, found.old) }
    ensures { OnOk result (AreFoundFor get.old.sizes found.new) }
{
    drive_for(rt, alloc, words, get, found, usize::MAX)
}

// Makes the steps of a whole getSet of a port that isn't marked.
fn drive_new(
    rt: &impl Abort,
    alloc: Global,
    words: &mut [u64],
    sizes: Sizes,
    found: &mut Found,
) -> Result<Vec<Step>, AllocError>
    requires { AreFoundFor sizes found.old }
    ensures { OnOk result (AreFoundFor sizes found.new) }
{
    let mut get = GetSet::new(sizes, false);
    drive(rt, alloc, words, &mut get, found)
}

// Makes so many steps of a getSet on the words, or fewer when it ends.
fn drive_for(
    rt: &impl Abort,
    alloc: Global,
    words: &mut [u64],
    get: &mut GetSet,
    found: &mut Found,
    most: usize,
) -> Result<Vec<Step>, AllocError>
    requires { SetGoesTogether (get.old, found.old) }
    ensures sizes { OnOk result (AreFoundFor get.old.sizes found.new) }
    ensures together { OnOk result (SetGoesTogether (get.new, found.new)) }
{
    let mut steps = Vec::new(alloc);
    for _ in 0..most {
        let Some(step) = get.step() else {
            break;
        };
        assert!(rt; (step.word() as usize) < words.len());
        let x = step.perform(words);
        assert!(rt; get.may_answer(found, x));
        get.answer(found, x);
        steps.push(step)?;
    }
    Ok(steps)
}

// The steps have to be loads of these words.
fn assert_loads(rt: &impl Abort, steps: &[Step], words: &[u32]) {
    assert_eq!(rt; steps.len(), words.len());
    for (step, word) in steps.iter().zip(words) {
        assert_eq!(rt; *step, Step::Load(*word));
    }
}

// The steps have to be loads of the slots and of the announcements that they name, and then the publishing of a
// list of slots 1 to 3.
fn assert_walk(rt: &impl Abort, steps: &[Step]) {
    assert_eq!(rt; steps.len(), 17);
    assert_loads(
        rt,
        &steps[..12],
        &[3, 2, 6, 24, 25, 26, 7, 8, 27, 28, 29, 9],
    );
    assert_eq!(rt;
        &steps[12..],
        [
            Step::Add(5, 3),
            Step::Store(10, 1),
            Step::Store(11, 1),
            Step::Store(12, 1),
            Step::Exchange(3, 0, 10)
        ]
        .as_slice()
    );
}

#[test]
fn walks_all_slots(rt: HostRuntime) -> Result<(), Fail> {
    let sizes = Sizes::new(2, 4, 8, 64)?;
    let mut words = words_with(
        &rt,
        rt.alloc(),
        sizes,
        &[
            (2, 4),
            (5, 10),
            (6, 24),
            (7, 1),
            (8, 27),
            (24, 2),
            (25, 1),
            (27, 2),
        ],
    )?;
    let mut found = Found::new(rt.alloc(), sizes)?;
    let mut get = GetSet::new(sizes, false);
    let steps = drive(&rt, rt.alloc(), &mut words, &mut get, &mut found)?;
    assert_walk(&rt, &steps);
    assert_eq!(rt; found.indices(), [1, 0].as_slice());
    assert!(rt; !get.lists_spent());
    Ok(())
}

// Makes the steps of a join on the words, one after another.
fn drive_join(
    rt: &impl Abort,
    alloc: Global,
    words: &mut [u64],
    join: &mut Join,
) -> Result<Vec<Step>, AllocError> {
    let mut steps = Vec::new(alloc);
    while let Some(step) = join.step() {
        assert!(rt; (step.word() as usize) < words.len());
        join.answer(step.perform(words));
        steps.push(step)?;
    }
    Ok(steps)
}

#[test]
fn walks_no_further_than_the_slots(rt: HostRuntime) -> Result<(), Fail> {
    let sizes = Sizes::new(2, 4, 8, 64)?;
    let mut words = words_with(&rt, rt.alloc(), sizes, &[(2, 68), (5, 10)])?;
    let mut found = Found::new(rt.alloc(), sizes)?;
    let mut get = GetSet::new(sizes, false);
    let steps = drive(&rt, rt.alloc(), &mut words, &mut get, &mut found)?;
    assert_eq!(rt; steps.len(), 6);
    assert!(rt; found.indices().is_empty());
    Ok(())
}

#[test]
fn joins_and_leaves(rt: HostRuntime) -> Result<(), Fail> {
    let sizes = Sizes::new(2, 4, 8, 64)?;
    let mut words = words_with(&rt, rt.alloc(), sizes, &[(2, 1)])?;
    let mut join = Join::new(sizes, 24);
    let steps = drive_join(&rt, rt.alloc(), &mut words, &mut join)?;
    assert_eq!(rt;
        steps.as_slice(),
        [Step::Add(2, 1), Step::Store(7, 24)].as_slice()
    );
    assert_eq!(rt; join.joined(), Some(1));
    assert!(rt; !join.spent());
    let mut leave = Leave::new(sizes, 1);
    assert_eq!(rt; leave.step(), Some(Step::Store(7, 1)));
    leave.answer(0);
    assert_eq!(rt; leave.step(), None);
    Ok(())
}

// Makes a getSet that publishes two intervals: slots 0 to 1, and slot 3.
fn publish_intervals(
    rt: &impl Abort,
    alloc: Global,
    words: &mut [u64],
    sizes: Sizes,
    found: &mut Found,
) -> Result<(), AllocError>
    requires { AreFoundFor sizes found.old }
    ensures { OnOk result (AreFoundFor sizes found.new) }
{
    let steps = drive_new(rt, alloc, words, sizes, found)?;
    assert_eq!(rt; steps.len(), 15);
    assert_eq!(rt;
        &steps[8..],
        [
            Step::Add(5, 5),
            Step::Store(13, 2),
            Step::Store(14, 0),
            Step::Store(15, 1),
            Step::Store(16, 3),
            Step::Store(17, 3),
            Step::Exchange(3, 10, 13),
        ]
        .as_slice()
    );
    Ok(())
}

// Makes a getSet that gets too few list words, and marks its port.
fn spend_lists(
    rt: &impl Abort,
    alloc: Global,
    words: &mut [u64],
    sizes: Sizes,
    found: &mut Found,
) -> Result<(), AllocError>
    requires { AreFoundFor sizes found.old }
{
    let mut get = GetSet::new(sizes, false);
    let steps = drive(rt, alloc, words, &mut get, found)?;
    assert_eq!(rt; steps.last().copied(), Some(Step::Add(5, 3)));
    assert!(rt; get.lists_spent());
    Ok(())
}

// The list (0, 0) grows by slot 1, and slot 3 stands apart. The next getSet empties the buffers first, and
// gets too few list words: it marks its port.
#[test]
fn lists_spent(rt: HostRuntime) -> Result<(), Fail> {
    let sizes = Sizes::new(2, 4, 8, 64)?;
    let mut words = words_with(
        &rt,
        rt.alloc(),
        sizes,
        &[(2, 4), (3, 10), (5, 13), (6, 1), (7, 1), (9, 1), (10, 1)],
    )?;
    let mut found = Found::new(rt.alloc(), sizes)?;
    publish_intervals(&rt, rt.alloc(), &mut words, sizes, &mut found)?;
    words_mark_slot(&rt, &mut words);
    spend_lists(&rt, rt.alloc(), &mut words, sizes, &mut found)?;
    Ok(())
}

// Marks slot 2 as vacated too.
fn words_mark_slot(rt: &impl Abort, words: &mut [u64]) {
    assert!(rt; words.len() > 8);
    words[8] = 1;
}
