//! What the exchange of its component says of an update.

/// How an update ended that was not refused.
#[derive(Clone, Copy, Debug, PartialEq, Eq)]
pub enum Exchanged {
    /// It took effect, and its record has this stamp.
    Applied { stamp: u64 },
    /// It had no effect: the component had this stamp in place of the one that the update wanted to replace.
    Overtaken { by: u64 },
}

impl Exchanged {
    ghost use Rattle.std.specs.Prelude.{◌≡◌, ◌==◌, Ok, if◌then◌else◌};
    ghost use Rattle.partial_machine.specs.declared.stage.Change.{Change};
    ghost use Rattle.partial_machine.specs.declared.stage.Reply.TheVariants as reply;
    ghost use Rattle.partial_machine.specs.Machine.{overtaken_reply};
    ghost use Rattle.partial_lines.specs.Replies.{update_reply};

    /// Says how an update ended whose record has the stamp `at`: the exchange of its component wanted to replace
    /// `old`, and found `found`.
    #[inline(always)]
    pub fn of(old: u64, at: u64, found: u64) -> Exchanged
        ensures { (c : Change) → update_reply c (Ok result) ≡
            (if found == old then reply.Applied at else overtaken_reply c found) }
    {
        if found == old {
            Exchanged::Applied { stamp: at }
        } else {
            Exchanged::Overtaken { by: found }
        }
    }
}
