//! The embedded scan of an update or a scan. Its loads are steps of the call.

ghost use Rattle.std.specs.Prelude.{◌≡◌, true, false, IfOk, OnOk};
ghost use Rattle.std.proofs.Common.{refl, ◌∙◌};
ghost use Rattle.partial_embedded.specs.Embedded.{fresh_view};
ghost use Rattle.partial_machine.specs.declared.stage.Stage.TheVariants.{Idle, Scanning, Leaving};
ghost use Rattle.partial_machine.specs.Machine.{at_stage, scanning, with_scanning};
ghost use Rattle.partial_machine.specs.Lines.{scan_begun};
ghost use Rattle.partial_lines.specs.Lines.{IsScanStage, IsViewing, ScansOn, behind_scan, positions_at, scans_further, scans_itself};

use crate::makes::Makes;
use partial_core::Core;
use partial_embedded::{Embedded, Loads};

/// The loads of an embedded scan, to which a call has come.
#[derive(Drop)]
pub struct ScanLoads<'a, M> {
    /// Whoever makes the steps of the call.
    pub lines: &'a mut M,
}

impl<'a, M: Makes> Loads for ScanLoads<'a, M> {
    type Break = M::Break;

    ghost goes = { λ l. M.goes l.lines.now × IsScanStage (M.machine l.lines.now) (M.machine l.lines.now).stage };

    ghost scan = { λ l. scanning (M.machine l.lines.now) };

    ghost positions = { λ l. positions_at (M.machine l.lines.now) (M.machine l.lines.now).stage };

    ghost follows = { λ l k. ((k.lines.ghost_name ≡ l.lines.ghost_name) × M.leads l.lines.now k.lines.now) ×
        ScansOn (M.machine l.lines.now) (M.machine k.lines.now) };

    #[inline(always)]
    fn load_component(&mut self, word: u64) -> Result<u64, M::Break> {
        self.lines.load_component(word)
    }

    #[inline(always)]
    fn load(&mut self, word: u64) -> Result<u64, M::Break> {
        self.lines.load(word)
    }

    ghost follows_itself = { λ l. ((refl, M.leads_itself l.lines.now), scans_itself (M.machine l.lines.now)) };

    ghost follows_on = { λ l k j f g. (
      (g.0.0 ∙ f.0.0, M.leads_on l.lines.now k.lines.now j.lines.now f.0.1 g.0.1),
      scans_further (M.machine l.lines.now) (M.machine k.lines.now) (M.machine j.lines.now) f.1 g.1,
    ) };
}

/// Makes the embedded scan of a scan of these positions, and returns it. The port's machine does not hold it
/// meanwhile, so its stage needs no memory.
///
/// # Errors
/// [`Makes::Break`] when `lines` break the call off.
#[inline(always)]
pub fn scan_asked<M: Makes>(
    lines: &mut M,
    core: &mut Core,
    which: &[u32],
) -> Result<Embedded, M::Break>
    requires goes { M.goes lines.old }
    requires idle { core.old.stage ≡ Idle }
    requires stage { (M.machine lines.old).stage ≡ Scanning }
    requires sizes { (M.machine lines.old).sizes ≡ core.old.sizes }
    requires asked { (M.machine lines.old).asked ≡ which.now }
    requires scan { scanning (M.machine lines.old) ≡ (fresh_view core.old.sizes false, core.old.rows) }
    ensures goes { M.goes lines.new }
    ensures leads { M.leads lines.old lines.new }
    ensures machine { IfOk result (λ made. M.machine lines.new ≡
        at_stage (with_scanning (M.machine lines.old) (made, core.new.rows)) Leaving) }
    ensures core { core.new ≡ record core.old { rows = core.new.rows } }
{
    let begun = core.begin_scanning(false);
    let mut loads = ScanLoads { lines };
    core.scan_positions(begun, which, &mut loads)
}

/// Makes the embedded scan of an update, of the indices that its getSet found. The port's machine holds it
/// afterwards. This function is never inlined: mostly nobody scans, and then an update needs no stack for
/// it.
///
/// # Errors
/// [`Makes::Break`] when `lines` break the call off: the port's machine holds the scan as it was before.
#[inline(never)]
pub fn scan_found<M: Makes>(lines: &mut M, core: &mut Core) -> Result<(), M::Break>
    requires goes { M.goes lines.old }
    requires idle { core.old.stage ≡ Idle }
    requires stage { IsViewing (M.machine lines.old).stage }
    requires machine { M.machine lines.old ≡ at_stage (scan_begun core.old true) (M.machine lines.old).stage }
    ensures goes { M.goes lines.new }
    ensures leads { M.leads lines.old lines.new }
    ensures machine { OnOk result (M.machine lines.new ≡ at_stage core.new (behind_scan (M.machine lines.old).stage)) }
    ensures core { core.new ≡ with_scanning core.old (scanning core.new) }
{
    let begun = core.begin_scanning(true);
    let mut loads = ScanLoads { lines };
    let embedded = core.scan_found(begun, &mut loads)?;
    core.keep_scan(embedded);
    Ok(())
}
