//! A machine that claims words ahead of its records, and takes records from the words that it keeps. Its memory has
//! two components, with the values 10 and 20, and no port scans: an update loads the word of its component, the list
//! head and the slot counter, and its record has three words. The pool begins at word 18, and word 24 is the first free
//! one.

ghost use Rattle.std.specs.Prelude.{◌≡◌, ◌≤◌, IfOk, IsTrue, None};
ghost use Rattle.partial_machine.specs.declared.stage.Stage.TheVariants.{Idle, ClaimingRecord, StoringRecord};
ghost use Rattle.partial_machine.specs.Machine.{advance, record_size};
ghost use Rattle.partial_machine.specs.Possible.{IsPossible};
ghost use Rattle.partial_machine.specs.Sound.{IsInPool};

use super::{is_begun, is_due};
use partial_machine::{Change, Core, Reply};
use partial_model::Refused;
use partial_words::{Block, PlainWords, Sizes, Step};
use std::alloc::Global;
use std::process::Abort;
use std::test::Fail;

// The words of a memory at opening.
fn opened(alloc: Global, sizes: Sizes) -> Result<PlainWords, Fail>
    requires { sizes.m ≡ 2 }
{
    let mut words = Vec::new(alloc);
    for word in 0..sizes.total() {
        words.push(sizes.opening_word(&[10, 20], word))?;
    }
    Ok(PlainWords::from(words))
}

// The machine of a port that has made no call and claims so many words ahead.
fn made(alloc: Global, sizes: Sizes, ahead: u32) -> Result<Core, Fail>
    requires { ahead ≤ 93 }
    ensures { IfOk result (λ core. core.stage ≡ Idle) }
{
    let mut core = Core::new(alloc, sizes, 0)?;
    core.claim_ahead(ahead);
    Ok(core)
}

// Whether these words are pool words.
fn is_in_pool(sizes: Sizes, at: u64, size: u64) -> bool
    ensures { IsTrue result → IsInPool sizes at size }
{
    at <= u64::MAX - size
        && u64::from(sizes.pool_base()) <= at
        && at + size <= u64::from(sizes.pool_end())
}

// Makes the step that is due. It has to be this one, and to have this answer.
fn makes(rt: &impl Abort, core: &mut Core, words: &mut PlainWords, step: Step, answer: u64)
    requires { IsPossible core.old answer }
    ensures { core.new ≡ advance core.old answer }
{
    is_due(rt, core, Some(step));
    assert!(rt; (step.word() as usize) < words.len());
    assert_eq!(rt; words.perform(step), answer);
    core.answer(answer);
}

// Makes an update up to the first step of its record. The record before it lies at `old`.
fn loads(rt: &impl Abort, core: &mut Core, words: &mut PlainWords, change: Change, old: u64)
    requires idle { core.old.stage ≡ Idle }
    requires always { change.expected ≡ None }
    ensures stage { core.new.stage ≡ ClaimingRecord change old }
    ensures record { record_size core.new ≡ 3 }
    ensures sizes { core.new.sizes ≡ core.old.sizes }
    ensures ahead { core.new.ahead ≡ core.old.ahead }
    ensures spare { core.new.spare ≡ core.old.spare }
{
    assert!(rt; is_in_pool(core.sizes(), old, 3));
    is_begun(
        rt,
        core.begin_update(change.component, change.value),
        Ok(()),
    );
    makes(rt, core, words, Step::Load(change.component), old);
    makes(rt, core, words, Step::Load(3), 0);
    makes(rt, core, words, Step::Load(2), 0);
}

// Makes the other steps of an update, after the first store of its record.
fn ends(
    rt: &impl Abort,
    core: &mut Core,
    words: &mut PlainWords,
    change: Change,
    old: u64,
    at: u64,
    steps: [Step; 3],
)
    requires stage { core.old.stage ≡ StoringRecord change old at 1 }
    requires record { record_size core.old ≡ 3 }
    ensures { core.new.stage ≡ Idle }
{
    assert!(rt; is_in_pool(core.sizes(), old, 3));
    makes(rt, core, words, steps[0], 0);
    makes(rt, core, words, steps[1], 0);
    makes(rt, core, words, steps[2], old);
    assert_eq!(rt; core.take(), Some(Reply::Applied { stamp: at }));
}

// Makes an update whose record is begun by a claim that is answered with `at`.
fn claims(
    rt: &impl Abort,
    core: &mut Core,
    words: &mut PlainWords,
    change: Change,
    old: u64,
    at: u64,
    steps: [Step; 5],
)
    requires idle { core.old.stage ≡ Idle }
    requires always { change.expected ≡ None }
    ensures { core.new.stage ≡ Idle }
{
    let [claim, first, second, third, exchange] = steps;
    loads(rt, core, words, change, old);
    assert!(rt; core.spare().size < 3);
    assert!(rt; is_in_pool(core.sizes(), at, 3 + u64::from(core.ahead())));
    makes(rt, core, words, claim, at);
    makes(rt, core, words, first, 0);
    ends(rt, core, words, change, old, at, [second, third, exchange]);
}

// Makes an update whose record is taken from the spare words.
fn takes(
    rt: &impl Abort,
    core: &mut Core,
    words: &mut PlainWords,
    change: Change,
    old: u64,
    steps: [Step; 4],
)
    requires idle { core.old.stage ≡ Idle }
    requires always { change.expected ≡ None }
    ensures { core.new.stage ≡ Idle }
{
    let [first, second, third, exchange] = steps;
    let Block { at, size } = core.spare();
    assert!(rt; size >= 3);
    loads(rt, core, words, change, old);
    makes(rt, core, words, first, 0);
    ends(rt, core, words, change, old, at, [second, third, exchange]);
}

// Makes an update that is refused: its claim is answered with `at`, and goes past the end of the pool.
fn refused(
    rt: &impl Abort,
    core: &mut Core,
    words: &mut PlainWords,
    change: Change,
    old: u64,
    at: u64,
    claim: Step,
)
    requires idle { core.old.stage ≡ Idle }
    requires always { change.expected ≡ None }
    ensures { core.new.stage ≡ Idle }
{
    loads(rt, core, words, change, old);
    assert!(rt; core.spare().size < 3);
    assert!(rt; is_in_pool(core.sizes(), at, 0));
    makes(rt, core, words, claim, at);
    assert_eq!(rt; core.take(), Some(Reply::Refused(Refused::PoolSpent)));
    assert!(rt; core.pool_spent());
    assert!(rt; core.idle());
}

// An update of this component to that value.
fn update(component: u32, value: u64) -> Change
    ensures { result.expected ≡ None }
{
    Change {
        component,
        expected: None,
        value,
    }
}

// The first claim takes 93 words more than those of its record, and the second record is taken from them.
fn claims_once(rt: &impl Abort, core: &mut Core, words: &mut PlainWords)
    requires { core.old.stage ≡ Idle }
{
    let steps = [
        Step::Add(4, 96),
        Step::Store(24, 21),
        Step::Store(25, 50),
        Step::Store(26, 0),
        Step::Exchange(1, 21, 24),
    ];
    claims(rt, core, words, update(1, 50), 21, 24, steps);
    assert_eq!(rt; core.spare(), Block { at: 27, size: 93 });
    let steps = [
        Step::Store(27, 18),
        Step::Store(28, 60),
        Step::Store(29, 0),
        Step::Exchange(0, 18, 27),
    ];
    takes(rt, core, words, update(0, 60), 18, steps);
    assert_eq!(rt; core.spare(), Block { at: 30, size: 90 });
}

#[test]
fn claims_words_of_many_records(rt: HostRuntime) -> Result<(), Fail> {
    let sizes = Sizes::new(2, 4, 8, 128)?;
    let mut words = opened(rt.alloc(), sizes)?;
    let mut core = made(rt.alloc(), sizes, 93)?;
    claims_once(&rt, &mut core, &mut words);
    drop(core);
    Ok(())
}

// Each update claims the words of its own record.
fn claims_twice(rt: &impl Abort, core: &mut Core, words: &mut PlainWords)
    requires { core.old.stage ≡ Idle }
{
    let steps = [
        Step::Add(4, 3),
        Step::Store(24, 21),
        Step::Store(25, 50),
        Step::Store(26, 0),
        Step::Exchange(1, 21, 24),
    ];
    claims(rt, core, words, update(1, 50), 21, 24, steps);
    assert_eq!(rt; core.spare().size, 0);
    let steps = [
        Step::Add(4, 3),
        Step::Store(27, 18),
        Step::Store(28, 60),
        Step::Store(29, 0),
        Step::Exchange(0, 18, 27),
    ];
    claims(rt, core, words, update(0, 60), 18, 27, steps);
    assert_eq!(rt; core.spare().size, 0);
}

#[test]
fn claims_no_words_ahead(rt: HostRuntime) -> Result<(), Fail> {
    let sizes = Sizes::new(2, 4, 8, 128)?;
    let mut words = opened(rt.alloc(), sizes)?;
    let mut core = made(rt.alloc(), sizes, 0)?;
    assert_eq!(&rt; core.ahead(), 0);
    claims_twice(&rt, &mut core, &mut words);
    drop(core);
    Ok(())
}

// The first two records leave 2 spare words of 5.
fn leaves_two_words(rt: &impl Abort, core: &mut Core, words: &mut PlainWords)
    requires { core.old.stage ≡ Idle }
    ensures { core.new.stage ≡ Idle }
{
    let steps = [
        Step::Add(4, 8),
        Step::Store(24, 21),
        Step::Store(25, 50),
        Step::Store(26, 0),
        Step::Exchange(1, 21, 24),
    ];
    claims(rt, core, words, update(1, 50), 21, 24, steps);
    assert_eq!(rt; core.spare(), Block { at: 27, size: 5 });
    let steps = [
        Step::Store(27, 18),
        Step::Store(28, 60),
        Step::Store(29, 0),
        Step::Exchange(0, 18, 27),
    ];
    takes(rt, core, words, update(0, 60), 18, steps);
    assert_eq!(rt; core.spare(), Block { at: 30, size: 2 });
}

// The third record doesn't fit into them, and claims anew.
fn claims_anew(rt: &impl Abort, core: &mut Core, words: &mut PlainWords)
    requires { core.old.stage ≡ Idle }
{
    leaves_two_words(rt, core, words);
    let steps = [
        Step::Add(4, 8),
        Step::Store(32, 24),
        Step::Store(33, 70),
        Step::Store(34, 0),
        Step::Exchange(1, 24, 32),
    ];
    claims(rt, core, words, update(1, 70), 24, 32, steps);
    assert_eq!(rt; core.spare(), Block { at: 35, size: 5 });
}

#[test]
fn claims_where_spare_words_are_too_few(rt: HostRuntime) -> Result<(), Fail> {
    let sizes = Sizes::new(2, 4, 8, 128)?;
    let mut words = opened(rt.alloc(), sizes)?;
    let mut core = made(rt.alloc(), sizes, 5)?;
    claims_anew(&rt, &mut core, &mut words);
    drop(core);
    Ok(())
}

// The pool ends at word 38. The third record would fit there, but not the words ahead: the update is refused, and the
// spare words stay.
fn claims_past_the_end(rt: &impl Abort, core: &mut Core, words: &mut PlainWords)
    requires { core.old.stage ≡ Idle }
    ensures { core.new.stage ≡ Idle }
{
    leaves_two_words(rt, core, words);
    refused(rt, core, words, update(1, 70), 24, 32, Step::Add(4, 8));
    assert_eq!(rt; core.spare(), Block { at: 30, size: 2 });
}

// With its marks the port's spare words are gone, and in new words it claims as many words ahead as before.
fn clears(rt: &impl Abort, core: &mut Core, words: &mut PlainWords)
    requires { core.old.stage ≡ Idle }
{
    core.clear_marks();
    assert!(rt; !core.pool_spent());
    assert_eq!(rt; core.spare().size, 0);
    let steps = [
        Step::Add(4, 8),
        Step::Store(24, 21),
        Step::Store(25, 80),
        Step::Store(26, 0),
        Step::Exchange(1, 21, 24),
    ];
    claims(rt, core, words, update(1, 80), 21, 24, steps);
    assert_eq!(rt; core.spare(), Block { at: 27, size: 5 });
}

#[test]
fn refused_claim_leaves_spare_words(rt: HostRuntime) -> Result<(), Fail> {
    let sizes = Sizes::new(2, 4, 8, 20)?;
    let mut words = opened(rt.alloc(), sizes)?;
    let mut others = opened(rt.alloc(), sizes)?;
    let mut core = made(rt.alloc(), sizes, 5)?;
    claims_past_the_end(&rt, &mut core, &mut words);
    clears(&rt, &mut core, &mut others);
    drop(core);
    Ok(())
}
