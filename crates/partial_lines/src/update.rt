//! An update in straight lines, from its getSet up to the exchange of its component. Its getSet and its
//! embedded scan are made by their own machines, in loops.

ghost use Rattle.std.specs.Prelude.{◌≡◌, ◌+◌, ◌^◌, ◌<◌, true, [], Some, None, IfOk, IfErr, IfSome, IfNone, OnOk};
ghost use Rattle.partial_model.specs.declared.call.Refused.TheVariants as refused;
ghost use Rattle.partial_machine.specs.declared.stage.Reply.TheVariants as reply;
ghost use Rattle.partial_machine.specs.declared.stage.Stage.TheVariants.{Idle, ClaimingRecord, StoringRecord, Exchanging};
ghost use Rattle.partial_machine.specs.Lines.{set_begun};
ghost use Rattle.partial_machine.specs.Machine.{at_stage, pool_refused, record_size, reply_of};
ghost use Rattle.partial_machine.specs.Sound.{IsInPool, IsSound};
ghost use Rattle.partial_core.specs.Part.{IsMarkedLike};
ghost use Rattle.partial_lines.specs.Lines.{IsViewDue, set_made, writing_stage, written_in};
ghost use Rattle.partial_lines.specs.Replies.{RestsLike};

use crate::embedded::scan_found;
use crate::get_set::SetSteps;
use crate::makes::Makes;
use partial_core::{Change, Core};
use partial_words::{Block, Step, plain_record_size, value_word, view_word};

/// What an update has done by its getSet, and by the claim and the stores that follow where it finds no announced
/// index.
#[derive(Clone, Copy)]
pub enum PutBegun {
    /// It has found none, and its record lies at this reference, without a view. The exchange of its component is due.
    Written { at: u64 },
    /// It has found none, and the claim of its record went past the end of the pool: it is refused, and the port marked.
    Refused,
    /// It has found some: its embedded scan is due.
    Found,
}

impl PutBegun {
    ghost use Rattle.std.specs.Prelude.{◌≡◌, Some};
    ghost use Rattle.partial_lines.specs.Lines.{written_in};

    // Where the record was written, or that its claim was refused.
    #[inline(always)]
    fn of(written: Option<u64>) -> PutBegun
        ensures { written_in result ≡ Some written }
    {
        match written {
            Some(at) => PutBegun::Written { at },
            None => PutBegun::Refused,
        }
    }
}

/// Makes an update that has loaded `old` as its component's record, from its getSet up to the exchange of the
/// component, and returns the reference of its record. The exchange of `old` for it is due then, and the caller
/// makes it. Returns `None` when the claim of the record went past the end of the pool: the update is refused,
/// and the port marked.
///
/// # Errors
/// [`Makes::Break`] when `lines` break the call off.
#[inline(always)]
pub fn put<M: Makes>(
    lines: &mut M,
    core: &mut Core,
    change: Change,
    old: u64,
) -> Result<Option<u64>, M::Break>
    requires goes { M.goes lines.old }
    requires idle { core.old.stage ≡ Idle }
    requires sound { IsSound core.old }
    requires machine { M.machine lines.old ≡ set_made (set_begun core.old) change old }
    ensures goes { M.goes lines.new }
    ensures leads { M.leads lines.old lines.new }
    ensures due { IfOk result (λ put. IfSome put (λ at. (M.machine lines.new).stage ≡ Exchanging change old at)) }
    ensures refused { IfOk result (λ put.
        IfNone put (reply_of (M.machine lines.new) ≡ Some (reply.Refused refused.PoolSpent))) }
    ensures rests { OnOk result (RestsLike (M.machine lines.new) core.new) }
{
    match begin_put(lines, core, change, old)? {
        PutBegun::Written { at } => Ok(Some(at)),
        PutBegun::Refused => Ok(None),
        PutBegun::Found => put_found(lines, core, change, old),
    }
}

/// The same, up to the embedded scan where one is due: [`put_found`] goes on from there. A caller can make that a function of
/// its own, so that an update that finds no announced index needs no room for what another one keeps.
///
/// # Errors
/// [`Makes::Break`] when `lines` break the call off.
#[inline(always)]
pub fn begin_put<M: Makes>(
    lines: &mut M,
    core: &mut Core,
    change: Change,
    old: u64,
) -> Result<PutBegun, M::Break>
    requires goes { M.goes lines.old }
    requires idle { core.old.stage ≡ Idle }
    requires sound { IsSound core.old }
    requires machine { M.machine lines.old ≡ set_made (set_begun core.old) change old }
    ensures goes { M.goes lines.new }
    ensures leads { M.leads lines.old lines.new }
    ensures due { IfOk result (λ put. IfSome (written_in put) (λ written.
        IfSome written (λ at. (M.machine lines.new).stage ≡ Exchanging change old at))) }
    ensures refused { IfOk result (λ put. IfSome (written_in put) (λ written.
        IfNone written (reply_of (M.machine lines.new) ≡ Some (reply.Refused refused.PoolSpent)))) }
    ensures rests { IfOk result (λ put. IfSome (written_in put) (λ _. RestsLike (M.machine lines.new) core.new)) }
    ensures found { IfOk result (λ put. IfNone (written_in put) (IsViewDue (M.machine lines.new) core.new change old)) }
{
    let mut steps = SetSteps { lines };
    let set = core.make_set(&mut steps)?;
    let SetSteps { lines } = steps;
    if core.found_none() {
        core.keep_list_mark(&set);
        let written = write_plain(lines, core, change, old)?;
        return Ok(PutBegun::of(written));
    }
    core.keep_set(set);
    Ok(PutBegun::Found)
}

/// Makes an update whose embedded scan is due, up to the exchange of its component, as [`put`] does.
///
/// # Errors
/// [`Makes::Break`] when `lines` break the call off.
#[inline(always)]
pub fn put_found<M: Makes>(
    lines: &mut M,
    core: &mut Core,
    change: Change,
    old: u64,
) -> Result<Option<u64>, M::Break>
    requires goes { M.goes lines.old }
    requires due { IsViewDue (M.machine lines.old) core.old change old }
    ensures goes { M.goes lines.new }
    ensures leads { M.leads lines.old lines.new }
    ensures due { IfOk result (λ put. IfSome put (λ at. (M.machine lines.new).stage ≡ Exchanging change old at)) }
    ensures refused { IfOk result (λ put.
        IfNone put (reply_of (M.machine lines.new) ≡ Some (reply.Refused refused.PoolSpent))) }
    ensures rests { OnOk result (RestsLike (M.machine lines.new) core.new) }
{
    scan_found(lines, core)?;
    write_record(lines, core, change, old)
}

// Writes the record of an update that found no announced index. The record has no view. Returns its reference, or `None` when
// its claim is refused.
#[inline(always)]
fn write_plain<M: Makes>(
    lines: &mut M,
    core: &mut Core,
    change: Change,
    old: u64,
) -> Result<Option<u64>, M::Break>
    requires goes { M.goes lines.old }
    requires idle { core.old.stage ≡ Idle }
    requires stage { (M.machine lines.old).stage ≡ ClaimingRecord change old }
    requires none { (M.machine lines.old).found.indices ≡ [] }
    requires borrowed { (M.machine lines.old).embedded.borrowed ≡ None }
    requires like { IsMarkedLike (M.machine lines.old) core.old }
    requires ahead { (M.machine lines.old).ahead ≡ core.old.ahead }
    ensures goes { M.goes lines.new }
    ensures leads { M.leads lines.old lines.new }
    ensures due { IfOk result (λ put. IfSome put (λ at. M.machine lines.new ≡
        at_stage (record (M.machine lines.old) { spare = core.new.spare }) (Exchanging change old at))) }
    ensures refused { IfOk result (λ put.
        IfNone put (M.machine lines.new ≡ pool_refused (M.machine lines.old))) }
    ensures like { OnOk result (IsMarkedLike (M.machine lines.new) core.new) }
    ensures ahead { OnOk result (core.new.ahead ≡ (M.machine lines.new).ahead) }
    ensures within { IsInPool core.new.sizes core.new.spare.at core.new.spare.size }
    ensures core { core.new ≡ record core.old { pool_spent = core.new.pool_spent; spare = core.new.spare } }
{
    let Some(at) = begin_record(lines, core, change, old, plain_record_size())? else {
        return Ok(None);
    };
    lines.make(Step::Store(value_word(at) as u32, change.value))?;
    lines.store_zero(view_word(at) as u32)?;
    Ok(Some(at))
}

// Writes the record of an update that made an embedded scan. Returns its reference, or `None` when its claim is refused.
fn write_record<M: Makes>(
    lines: &mut M,
    core: &mut Core,
    change: Change,
    old: u64,
) -> Result<Option<u64>, M::Break>
    requires goes { M.goes lines.old }
    requires idle { core.old.stage ≡ Idle }
    requires machine { M.machine lines.old ≡ at_stage core.old (ClaimingRecord change old) }
    ensures goes { M.goes lines.new }
    ensures leads { M.leads lines.old lines.new }
    ensures due { IfOk result (λ put. IfSome put (λ at.
        M.machine lines.new ≡ at_stage core.new (Exchanging change old at))) }
    ensures refused { IfOk result (λ put.
        IfNone put ((M.machine lines.new ≡ pool_refused core.old) × (core.new ≡ record core.old { pool_spent = true }))) }
    ensures core { core.new ≡ record core.old { pool_spent = core.new.pool_spent; spare = core.new.spare } }
{
    let size = core.record_size();
    let Some(at) = begin_record(lines, core, change, old, size)? else {
        return Ok(None);
    };
    fill_record(lines, core, change, old, at)?;
    Ok(Some(at))
}

// Begins the record of an update, of so many words: takes them from the spare words, or claims them and those ahead, and
// stores the first one. Returns its reference, or `None` when the claim is refused.
#[inline(always)]
fn begin_record<M: Makes>(
    lines: &mut M,
    core: &mut Core,
    change: Change,
    old: u64,
    size: u64,
) -> Result<Option<u64>, M::Break>
    requires goes { M.goes lines.old }
    requires idle { core.old.stage ≡ Idle }
    requires stage { (M.machine lines.old).stage ≡ ClaimingRecord change old }
    requires size { size ≡ record_size (M.machine lines.old) }
    requires sizes { (M.machine lines.old).sizes ≡ core.old.sizes }
    requires spare { (M.machine lines.old).spare ≡ core.old.spare }
    requires ahead { (M.machine lines.old).ahead ≡ core.old.ahead }
    ensures goes { M.goes lines.new }
    ensures leads { M.leads lines.old lines.new }
    ensures begun { IfOk result (λ begun. IfSome begun (λ at. M.machine lines.new ≡
        at_stage (record (M.machine lines.old) { spare = core.new.spare }) (StoringRecord change old at 1))) }
    ensures fits { IfOk result (λ begun. IfSome begun (λ at. at + size < 2 ^ 32)) }
    ensures refused { IfOk result (λ begun. IfNone begun ((M.machine lines.new ≡ pool_refused (M.machine lines.old)) ×
        (core.new ≡ record core.old { pool_spent = true }))) }
    ensures core { IfOk result (λ begun. IfSome begun (λ _. core.new ≡ record core.old { spare = core.new.spare })) }
    ensures same { IfErr result (λ _. core.new ≡ core.old) }
    ensures within { IsInPool core.new.sizes core.new.spare.at core.new.spare.size }
{
    let sizes = core.sizes();
    let end = u64::from(sizes.pool_end());
    let Block { at, size: room } = core.spare();
    if size <= room {
        lines.make(Step::Store(at as u32, old))?;
        core.keep_spare(Block {
            at: at + size,
            size: room - size,
        });
        return Ok(Some(at));
    }
    let ahead = u64::from(core.ahead());
    let at = lines.make(Step::Add(sizes.pool_counter(), size + ahead))?;
    if at + size + ahead > end {
        core.mark_pool();
        return Ok(None);
    }
    lines.make(Step::Store(at as u32, old))?;
    core.keep_spare(Block {
        at: at + size,
        size: ahead,
    });
    Ok(Some(at))
}

// Stores the words of the record that follow its first one: the two that each record has, and its view.
#[inline(always)]
fn fill_record<M: Makes>(
    lines: &mut M,
    core: &Core,
    change: Change,
    old: u64,
    at: u64,
) -> Result<(), M::Break>
    requires goes { M.goes lines.old }
    requires machine { M.machine lines.old ≡ at_stage core.now (writing_stage core.now change old at 1) }
    requires fits { at + record_size core.now < 2 ^ 32 }
    ensures goes { M.goes lines.new }
    ensures leads { M.leads lines.old lines.new }
    ensures machine { OnOk result (M.machine lines.new ≡ at_stage core.now (Exchanging change old at)) }
{
    store_word(lines, core, change, old, at, 1)?;
    store_word(lines, core, change, old, at, 2)?;
    for k in plain_record_size()..core.record_size() {
        store_word(lines, core, change, old, at, k)?;
    }
    Ok(())
}

// Stores word `k` of the record.
#[inline(always)]
fn store_word<M: Makes>(
    lines: &mut M,
    core: &Core,
    change: Change,
    old: u64,
    at: u64,
    k: u64,
) -> Result<(), M::Break>
    requires goes { M.goes lines.old }
    requires machine { M.machine lines.old ≡ at_stage core.now (writing_stage core.now change old at k) }
    requires more { k < record_size core.now }
    requires fits { at + k < 2 ^ 32 }
    ensures goes { M.goes lines.new }
    ensures leads { M.leads lines.old lines.new }
    ensures machine { OnOk result
        (M.machine lines.new ≡ at_stage core.now (writing_stage core.now change old at (k + 1))) }
{
    let word = core.record_word(change, old, at, k);
    lines.make(Step::Store((at + k) as u32, word))?;
    Ok(())
}
