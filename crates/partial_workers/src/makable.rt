//! Which calls a run accepts.

ghost use Rattle.std.specs.Prelude.{◌≡◌, true, false};
ghost use Rattle.std.specs.List.{AllByRecursion};
ghost use Rattle.partial_workers.specs.Answered.{AreMakable, IsCallWithin};

use partial_model::{Call, Sequence};

// Whether a scan has at most m positions. Any other call is within.
fn is_within(m: u32, call: &Call) -> bool
    ensures yes { result ≡ true → IsCallWithin m call.now }
    ensures no { result ≡ false → ¬ IsCallWithin m call.now }
{
    match call {
        Call::Scan { components } => components.len() <= m as usize,
        Call::Update { .. } | Call::Read { .. } | Call::UpdateIf { .. } => true,
    }
}

// Whether each scan of these calls has at most m positions.
fn are_within(m: u32, calls: &[Call]) -> bool
    ensures yes { result ≡ true → AllByRecursion (IsCallWithin m) calls.now }
    ensures no { result ≡ false → ¬ AllByRecursion (IsCallWithin m) calls.now }
{
    for call in calls {
        if !is_within(m, call) {
            return false;
        }
    }
    true
}

/// Whether a memory of m components accepts the calls of each port: each scan has at most m positions, and
/// no port has more than 4,294,967,295 calls.
pub fn are_makable(m: u32, ports: &[Sequence<Call>]) -> bool
    ensures yes { result ≡ true → AreMakable m ports.now }
    ensures no { result ≡ false → ¬ AreMakable m ports.now }
{
    for calls in ports {
        if calls.len() > u32::MAX as usize || !are_within(m, calls.as_slice()) {
            return false;
        }
    }
    true
}
