//! The numbers that the calls return: 0 for an answer, otherwise the number of the refusal. Calls refused
//! by the memory return the numbers of its own errors.
//!
//! The number of a port's call that is refused comes from a cold function that isn't put in line. So a compiler keeps
//! what is done for a refusal out of the way of a call that is answered.

ghost use Rattle.std.specs.Prelude.{◌≡◌};
ghost use Rattle.partial_model.specs.Refusals.{refused_code};
ghost use Rattle.partial_long_lived.specs.Refusals.{refusal_code};
ghost use Rattle.partial_door.specs.Misuses.{misuse_code};

use partial_long_lived::Refused;
use partial_model::Refused as RefusedByOpening;

/// The call was answered.
pub const FINE: u32 = 0;
/// An allocation was refused.
pub const OUT_OF_MEMORY: u32 = 6;
/// The handle doesn't hold what the call needs.
pub const HOLDS_NONE: u32 = 17;
/// The handle that is to be filled holds something already.
pub const HOLDS_ONE: u32 = 18;
/// Two lengths differ, or exceed the number of components.
pub const LENGTH: u32 = 19;
/// The two handles are of two memories.
pub const TWO_MEMORIES: u32 = 20;
/// The memory holds no port.
pub const NONE_FREE: u32 = 21;
/// Not all ports were returned to the memory.
pub const IN_USE: u32 = 22;
/// All ports were returned, and another handle still references the memory. A port that is returned gives up its
/// reference, so a caller who makes one call after the other on a handle doesn't get this number.
pub const SHARED: u32 = 24;

/// The version of the functions for C: 1,000,000 for a major version, 1,000 for a minor one, and 1 for a patch.
pub const VERSION: u32 = 1_000;

/// Why a call of a port is refused before its memory is asked.
#[derive(Clone, Copy, Debug, PartialEq, Eq)]
pub enum Misuse {
    /// The handle doesn't hold what the call needs.
    HoldsNone,
    /// Two lengths differ, or exceed the number of components.
    Length,
}

impl Misuse {
    /// The number of the refusal: 17 for `HoldsNone`, 19 for `Length`.
    #[cold]
    #[inline(never)]
    pub fn code(self) -> u32
        ensures { result ≡ misuse_code self }
    {
        match self {
            Misuse::HoldsNone => HOLDS_NONE,
            Misuse::Length => LENGTH,
        }
    }
}

/// The number of a refusal by a single opening.
#[cold]
#[inline(never)]
pub fn opening_code_of(refused: RefusedByOpening) -> u32
    ensures { result ≡ refused_code refused }
{
    u32::from(refused.code())
}

/// The number of a refusal by a long-lived memory.
#[cold]
#[inline(never)]
pub fn code_of(cause: Refused) -> u32
    ensures { result ≡ refusal_code cause }
{
    u32::from(cause.code())
}
