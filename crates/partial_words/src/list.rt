//! The words of a list of vacated slots.

ghost use Rattle.std.specs.Prelude.{◌≡◌, ◌+◌, ◌*◌, ◌^◌, ◌<◌, length, slice_index};
ghost use Rattle.partial_words.specs.VacatedList.{list_block, list_size, high_word, intervals_word, list_len, interval};

use partial_intervals::Intervals;

/// How many words a list of so many intervals has.
pub fn list_size(intervals: u64) -> u64
    requires { intervals < 2 ^ 32 }
    ensures { result ≡ list_size intervals }
{
    1 + 2 * intervals
}

/// The number of the first word of the intervals of the list at word `at`.
#[inline(always)]
pub fn intervals_word(at: u32) -> u32
    requires { intervals_word at < 2 ^ 32 }
    ensures { result ≡ intervals_word at }
{
    at + 1
}

/// Word `k` of a list: the number of its intervals, then the lowest and the highest slot of each.
pub fn list_block_word(intervals: &Intervals, k: usize) -> u64
    requires { k < length (list_block intervals.now.list) }
    ensures { result ≡ slice_index (list_block intervals.now.list) k }
{
    if k == 0 {
        return intervals.len() as u64;
    }
    let (lowest, highest) = intervals.get((k - 1) / 2);
    if (k - 1) % 2 == 0 {
        u64::from(lowest)
    } else {
        u64::from(highest)
    }
}

/// How many intervals the list at word `at` has.
pub fn list_len(words: &[u64], at: usize) -> u64
    requires { at < length words.now }
    ensures { result ≡ list_len words.now at }
{
    words[at]
}

/// Interval `k`, counted from 0, of the list at word `at`: its lowest and its highest slot.
pub fn interval(words: &[u64], at: usize, k: usize) -> (u64, u64)
    requires { high_word at k < length words.now }
    ensures { result ≡ interval words.now at k }
{
    (words[at + 1 + 2 * k], words[at + 2 + 2 * k])
}
