//! A read in straight lines, after its first step.

ghost use Rattle.std.specs.Prelude.{◌≡◌, ◌<◌, ◌^◌, IfOk, OnOk, Some};
ghost use Rattle.partial_words.specs.Record.{own_view};
ghost use Rattle.partial_machine.specs.declared.stage.Reply.TheVariants as reply;
ghost use Rattle.partial_machine.specs.declared.stage.Stage.TheVariants.{LoadingValue};
ghost use Rattle.partial_machine.specs.Machine.{CoreState, reply_of};
ghost use Rattle.partial_lines.specs.Replies.{RestsLike};

use crate::makes::Makes;
use partial_words::value_word;

/// Makes a read after its first step, the load of its component's word, which was answered with `stamp`. Returns
/// the value of that record.
///
/// # Errors
/// [`Makes::Break`] when `lines` break the call off.
#[inline(always)]
pub fn read<M: Makes>(lines: &mut M, stamp: u64) -> Result<u64, M::Break>
    requires goes { M.goes lines.old }
    requires stage { (M.machine lines.old).stage ≡ LoadingValue stamp }
    requires fits { own_view stamp < 2 ^ 64 }
    ensures goes { M.goes lines.new }
    ensures leads { M.leads lines.old lines.new }
    ensures replies { IfOk result (λ value. reply_of (M.machine lines.new) ≡ Some (reply.Read value stamp)) }
    ensures rests { OnOk result
        ((core : CoreState) → RestsLike (M.machine lines.old) core → RestsLike (M.machine lines.new) core) }
{
    lines.load(value_word(stamp))
}
