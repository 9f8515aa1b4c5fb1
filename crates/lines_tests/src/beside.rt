//! Calls in straight lines, beside the machine of their port: the same steps, the same answers, the same
//! replies.

ghost use Rattle.std.specs.Prelude.{◌≡◌, ◌<◌, ◌≤◌, length, None, OnOk};
ghost use Rattle.partial_machine.specs.declared.stage.Stage.TheVariants.{Idle, ReadBegun, UpdateBegun};
ghost use Rattle.partial_machine.specs.Calls.{core_update_refusal};
ghost use Rattle.partial_machine.specs.Lines.{scan_asked};
ghost use Rattle.partial_machine.specs.Machine.{at_stage, expects, fresh};
ghost use Rattle.partial_words.specs.Layout.{IsLayout};
ghost use Rattle.lines_tests.specs.Plain.{IsPlain};

use crate::plain::{Course, Plain};
use partial_core::{Change, Core, Reply};
use partial_lines::{Exchanged, put, read, scan};
use partial_model::Refused;
use partial_words::{Sizes, Step, announcement_size};
use std::alloc::{AllocError, Global};
use std::process::Abort;
use std::test::Fail;

// How a call ended beside its machine.
#[derive(Clone, Copy)]
struct Ending {
    // Whether both made the same steps, and gave the same reply.
    same: bool,
    // The reply. `None` when the machine has not ended the call.
    reply: Option<Reply>,
    // Whether the record of an update has a view.
    viewed: bool,
    // Whether the straight lines were broken off, so that the machine has ended the call alone.
    broken: bool,
}

impl Ending {
    // The end of a call that wrote no view.
    fn of(same: bool, reply: Reply) -> Ending {
        Ending {
            same,
            reply: Some(reply),
            viewed: false,
            broken: false,
        }
    }

    // The end of a call that was broken off: its machine has ended it alone.
    fn of_broken(lines: &mut Plain) -> Ending
        requires { IsPlain lines.old.words.items lines.old.beside lines.old.left lines.old.right }
    {
        lines.end();
        let reply = lines.reply();
        Ending {
            same: reply.is_some(),
            reply,
            viewed: false,
            broken: true,
        }
    }

    // Whether an update was applied.
    fn is_applied(&self) -> bool {
        matches!(self.reply, Some(Reply::Applied { .. }))
    }

    // Whether an update was overtaken by another one.
    fn is_lost(&self) -> bool {
        matches!(self.reply, Some(Reply::Lost { .. }))
    }

    // Whether a conditional update found another stamp.
    fn is_changed(&self) -> bool {
        matches!(self.reply, Some(Reply::Changed { .. }))
    }

    // Whether a read was answered.
    fn is_read(&self) -> bool {
        matches!(self.reply, Some(Reply::Read { .. }))
    }

    // Whether a scan was answered.
    fn is_scanned(&self) -> bool {
        matches!(self.reply, Some(Reply::Scanned { .. }))
    }

    // Whether a scan was answered with values of its own.
    fn is_own(&self) -> bool {
        matches!(self.reply, Some(Reply::Scanned { borrowed: None, .. }))
    }

    // Whether the call was refused for that cause.
    fn is_refused(&self, cause: Refused) -> bool {
        self.reply == Some(Reply::Refused(cause))
    }
}

// The course of a call that is never broken off.
fn whole(seed: u64) -> Course {
    Course {
        seed,
        allowed: u64::MAX,
    }
}

// Whether the component has a stamp with which the update goes on.
fn is_met(change: Change, stamp: u64) -> bool
    ensures { result ≡ expects change stamp }
{
    match change.expected {
        Some(expected) => expected == stamp,
        None => true,
    }
}

// Begins an update on its port's machine.
fn begin(core: &mut Core, change: Change) -> Result<(), Refused>
    requires { core.old.stage ≡ Idle }
    ensures { OnOk result ((core_update_refusal core.old change.component ≡ None) ×
        (core.new ≡ at_stage core.old (UpdateBegun change))) }
{
    match change.expected {
        Some(expected) => core.begin_update_if(change.component, expected, change.value),
        None => core.begin_update(change.component, change.value),
    }
}

// The reply to an update whose exchange ended so.
fn reply_to(change: Change, exchanged: Exchanged) -> Reply {
    match exchanged {
        Exchanged::Applied { stamp } => Reply::Applied { stamp },
        Exchanged::Overtaken { by } => match change.expected {
            Some(_) => Reply::Changed { by },
            None => Reply::Lost { by },
        },
    }
}

// Whether the machine has these values of a scan.
fn has_values(core: &Core, values: &[u64]) -> bool
    requires { length values.now ≤ length core.now.asked }
{
    for k in 0..values.len() {
        if core.scanned(k) != values[k] {
            return false;
        }
    }
    true
}

// Makes a read on the words, beside the machine that has begun it.
fn follow_read(lines: &mut Plain, sizes: Sizes, component: u32) -> Ending
    requires going { IsPlain lines.old.words.items lines.old.beside lines.old.left lines.old.right }
    requires begun { lines.old.beside ≡ at_stage (fresh sizes 0) (ReadBegun component) }
    requires sizes { IsLayout sizes }
    requires component { component < sizes.m }
{
    let stamp = lines.follow(Step::Load(sizes.component_word(component)));
    let Ok(value) = read(lines, stamp) else {
        return Ending::of_broken(lines);
    };
    let reply = Reply::Read { value, stamp };
    Ending::of(lines.ends_with(reply), reply)
}

// Makes a read beside its machine.
fn read_beside(
    alloc: Global,
    sizes: Sizes,
    initial: &[u64],
    component: u32,
    course: Course,
) -> Result<Ending, AllocError>
    requires sizes { IsLayout sizes }
    requires values { length initial.now ≡ sizes.m }
    requires component { component < sizes.m }
{
    let mut beside = Core::new(alloc, sizes, 0)?;
    if let Err(cause) = beside.begin_read(component) {
        drop(beside);
        return Ok(Ending::of(true, Reply::Refused(cause)));
    }
    let mut lines = Plain::open(alloc, sizes, initial, beside, course)?;
    let ending = follow_read(&mut lines, sizes, component);
    drop(lines);
    Ok(ending)
}

// Makes an update on the words, beside the machine that has begun it. The other machine makes it in straight lines.
fn follow_update(lines: &mut Plain, core: &mut Core, sizes: Sizes, change: Change) -> Ending
    requires going { IsPlain lines.old.words.items lines.old.beside lines.old.left lines.old.right }
    requires begun { lines.old.beside ≡ at_stage core.old (UpdateBegun change) }
    requires core { core.old ≡ fresh sizes 0 }
    requires sizes { IsLayout sizes }
    requires component { change.component < sizes.m }
{
    let component = sizes.component_word(change.component);
    let old = lines.follow(Step::Load(component));
    if !is_met(change, old) {
        let reply = Reply::Changed { by: old };
        return Ending::of(lines.ends_with(reply), reply);
    }
    let Ok(written) = put(lines, core, change, old) else {
        return Ending::of_broken(lines);
    };
    let Some(at) = written else {
        let reply = Reply::Refused(Refused::PoolSpent);
        return Ending::of(lines.ends_with(reply), reply);
    };
    let found = lines.follow(Step::Exchange(component, old, at));
    let reply = reply_to(change, Exchanged::of(old, at, found));
    let mut ending = Ending::of(lines.ends_with(reply), reply);
    ending.viewed = !core.found_none();
    ending
}

// Makes an update on words that are open, beside the machine that has begun it.
fn update_begun(
    alloc: Global,
    lines: &mut Plain,
    sizes: Sizes,
    change: Change,
) -> Result<Ending, AllocError>
    requires going { IsPlain lines.old.words.items lines.old.beside lines.old.left lines.old.right }
    requires begun { lines.old.beside ≡ at_stage (fresh sizes 0) (UpdateBegun change) }
    requires sizes { IsLayout sizes }
    requires component { change.component < sizes.m }
{
    let mut core = Core::new(alloc, sizes, 0)?;
    let ending = follow_update(lines, &mut core, sizes, change);
    drop(core);
    Ok(ending)
}

// Makes an update beside its machine.
fn update_beside(
    alloc: Global,
    sizes: Sizes,
    initial: &[u64],
    change: Change,
    course: Course,
) -> Result<Ending, AllocError>
    requires sizes { IsLayout sizes }
    requires values { length initial.now ≡ sizes.m }
    requires component { change.component < sizes.m }
{
    let mut beside = Core::new(alloc, sizes, 0)?;
    if let Err(cause) = begin(&mut beside, change) {
        drop(beside);
        return Ok(Ending::of(true, Reply::Refused(cause)));
    }
    let mut lines = Plain::open(alloc, sizes, initial, beside, course)?;
    let ending = update_begun(alloc, &mut lines, sizes, change);
    drop(lines);
    ending
}

// Makes a scan on the words, beside the machine that has begun it. The other machine makes it in straight lines. The
// values have to be the same too.
fn follow_scan(
    lines: &mut Plain,
    core: &mut Core,
    sizes: Sizes,
    which: &[u32],
    into: &mut [u64],
) -> Ending
    requires going { IsPlain lines.old.words.items lines.old.beside lines.old.left lines.old.right }
    requires begun { lines.old.beside ≡ scan_asked core.old which.now }
    requires core { core.old ≡ fresh sizes 0 }
    requires sizes { IsLayout sizes }
    requires lengths { length into.old ≡ length which.now }
{
    let size = announcement_size(which.len() as u64);
    let at = lines.follow(Step::Add(sizes.pool_counter(), size));
    let Ok(scanned) = scan(lines, core, which, at, into) else {
        return Ending::of_broken(lines);
    };
    let reply = match scanned {
        Ok(scanned) => Reply::Scanned {
            collects: scanned.collects,
            borrowed: scanned.borrowed,
        },
        Err(cause) => Reply::Refused(cause),
    };
    let same = scanned.is_err() || has_values(&lines.beside, into);
    Ending::of(lines.ends_with(reply) && same, reply)
}

// Makes a scan on words that are open, beside the machine that has begun it.
fn scan_begun(
    alloc: Global,
    lines: &mut Plain,
    sizes: Sizes,
    which: &[u32],
) -> Result<Ending, AllocError>
    requires going { IsPlain lines.old.words.items lines.old.beside lines.old.left lines.old.right }
    requires begun { lines.old.beside ≡ scan_asked (fresh sizes 0) which.now }
    requires sizes { IsLayout sizes }
{
    let mut into = vec![in alloc; 0; which.len()]?;
    let mut core = Core::new(alloc, sizes, 0)?;
    let ending = follow_scan(lines, &mut core, sizes, which, &mut into);
    drop((into, core));
    Ok(ending)
}

// Makes a scan beside its machine.
fn scan_beside(
    alloc: Global,
    sizes: Sizes,
    initial: &[u64],
    which: &[u32],
    course: Course,
) -> Result<Ending, AllocError>
    requires sizes { IsLayout sizes }
    requires values { length initial.now ≡ sizes.m }
    requires some { 0 < length which.now }
    requires few { length which.now ≤ sizes.m }
{
    let mut beside = Core::new(alloc, sizes, 0)?;
    if let Err(cause) = beside.begin_scan(which) {
        drop(beside);
        return Ok(Ending::of(true, Reply::Refused(cause)));
    }
    let mut lines = Plain::open(alloc, sizes, initial, beside, course)?;
    let ending = scan_begun(alloc, &mut lines, sizes, which);
    drop(lines);
    ending
}

#[test]
fn reads(rt: HostRuntime) -> Result<(), Fail> {
    let sizes = Sizes::new(3, 8, 16, 2000)?;
    let initial = [5, 6, 7];
    let mut opening = false;
    let mut written = false;
    for seed in 0..300u64 {
        let component = (seed % 3) as u32;
        let ending = read_beside(rt.alloc(), sizes, &initial, component, whole(seed))?;
        assert!(rt; ending.same, "at {seed}");
        if let Some(Reply::Read { stamp, .. }) = ending.reply {
            let first = stamp == sizes.opening_word(&initial, component);
            opening = opening || first;
            written = written || !first;
        }
    }
    assert!(rt; opening);
    assert!(rt; written);
    Ok(())
}

// Makes the update of that seed, which ends as its machine does.
fn update_ends(
    rt: &impl Abort,
    alloc: Global,
    sizes: Sizes,
    expected: Option<u64>,
    seed: u64,
) -> Result<Ending, AllocError>
    requires sizes { IsLayout sizes }
    requires three { sizes.m ≡ 3 }
{
    let change = Change {
        component: (seed % 3) as u32,
        expected,
        value: seed,
    };
    let ending = update_beside(alloc, sizes, &[5, 6, 7], change, whole(seed))?;
    assert!(rt; ending.same, "at {seed}");
    Ok(ending)
}

#[test]
fn updates(rt: HostRuntime) -> Result<(), Fail> {
    let large = Sizes::new(3, 8, 16, 2000)?;
    let small = Sizes::new(3, 8, 16, 20)?;
    let mut applied = false;
    let mut lost = false;
    let mut refused = false;
    let mut viewed = false;
    for seed in 0..300u64 {
        let sizes = if seed % 4 == 0 { small } else { large };
        let ending = update_ends(&rt, rt.alloc(), sizes, None, seed)?;
        applied |= ending.is_applied();
        lost |= ending.is_lost();
        refused |= ending.is_refused(Refused::PoolSpent);
        viewed |= ending.viewed;
    }
    assert!(rt; applied);
    assert!(rt; lost);
    assert!(rt; refused);
    assert!(rt; viewed);
    Ok(())
}

#[test]
fn conditional_updates(rt: HostRuntime) -> Result<(), Fail> {
    let sizes = Sizes::new(3, 8, 16, 2000)?;
    let mut applied = false;
    let mut changed = false;
    for seed in 0..300u64 {
        let expected = sizes.opening_word(&[5, 6, 7], (seed % 3) as u32);
        let ending = update_ends(&rt, rt.alloc(), sizes, Some(expected), seed)?;
        applied |= ending.is_applied();
        changed |= ending.is_changed();
    }
    assert!(rt; applied && changed);
    Ok(())
}

// Makes the scan of that seed, which ends as its machine does.
fn scan_ends(rt: &impl Abort, alloc: Global, sizes: Sizes, seed: u64) -> Result<Ending, AllocError>
    requires sizes { IsLayout sizes }
    requires three { sizes.m ≡ 3 }
{
    let ending = scan_beside(alloc, sizes, &[5, 6, 7], &[2, 0, 1], whole(seed))?;
    assert!(rt; ending.same, "at {seed}");
    Ok(ending)
}

#[test]
fn scans(rt: HostRuntime) -> Result<(), Fail> {
    let large = Sizes::new(3, 8, 16, 2000)?;
    let few_words = Sizes::new(3, 8, 16, 20)?;
    let few_slots = Sizes::new(3, 1, 16, 2000)?;
    let mut own = false;
    let mut borrowed = false;
    let mut pool = false;
    let mut slots = false;
    for seed in 0..300u64 {
        let sizes = match seed % 4 {
            0 => few_words,
            1 => few_slots,
            _ => large,
        };
        let ending = scan_ends(&rt, rt.alloc(), sizes, seed)?;
        own |= ending.is_own();
        borrowed |= ending.is_scanned() && !ending.is_own();
        pool |= ending.is_refused(Refused::PoolSpent);
        slots |= ending.is_refused(Refused::SlotsSpent);
    }
    assert!(rt; own);
    assert!(rt; borrowed);
    assert!(rt; pool);
    assert!(rt; slots);
    Ok(())
}

// Makes a read, which is broken off where it may make no step.
fn read_breaks_off(
    rt: &impl Abort,
    alloc: Global,
    sizes: Sizes,
    course: Course,
) -> Result<(), AllocError>
    requires sizes { IsLayout sizes }
    requires three { sizes.m ≡ 3 }
{
    let Course { seed, allowed } = course;
    let read = read_beside(alloc, sizes, &[5, 6, 7], 0, course)?;
    assert!(rt;
        read.same && read.broken == (allowed < 1),
        "{seed}, {allowed}"
    );
    assert!(rt; read.is_read(), "{seed}, {allowed}");
    Ok(())
}

// Makes an update, which may be whole where it may make more than three steps.
fn update_breaks_off(
    rt: &impl Abort,
    alloc: Global,
    sizes: Sizes,
    course: Course,
) -> Result<Ending, AllocError>
    requires sizes { IsLayout sizes }
    requires three { sizes.m ≡ 3 }
{
    let Course { seed, allowed } = course;
    let change = Change {
        component: 1,
        expected: None,
        value: seed,
    };
    let update = update_beside(alloc, sizes, &[5, 6, 7], change, course)?;
    assert!(rt;
        update.same && (update.broken || allowed > 3),
        "{seed}, {allowed}"
    );
    Ok(update)
}

// Makes a scan, which is broken off.
fn scan_breaks_off(
    rt: &impl Abort,
    alloc: Global,
    sizes: Sizes,
    course: Course,
) -> Result<(), AllocError>
    requires sizes { IsLayout sizes }
    requires three { sizes.m ≡ 3 }
{
    let Course { seed, allowed } = course;
    let scan = scan_beside(alloc, sizes, &[5, 6, 7], &[2, 0, 1], course)?;
    assert!(rt; scan.same && scan.broken, "{seed}, {allowed}");
    assert!(rt; scan.is_scanned(), "{seed}, {allowed}");
    Ok(())
}

#[test]
fn calls_that_are_broken_off(rt: HostRuntime) -> Result<(), Fail> {
    let sizes = Sizes::new(3, 64, 16, 4000)?;
    let mut broken = false;
    let mut whole = false;
    for seed in 0..20u64 {
        for allowed in 0..16u64 {
            let course = Course { seed, allowed };
            read_breaks_off(&rt, rt.alloc(), sizes, course)?;
            let update = update_breaks_off(&rt, rt.alloc(), sizes, course)?;
            broken |= update.broken && update.is_applied();
            whole |= !update.broken;
            scan_breaks_off(&rt, rt.alloc(), sizes, course)?;
        }
    }
    assert!(rt; broken && whole);
    Ok(())
}
