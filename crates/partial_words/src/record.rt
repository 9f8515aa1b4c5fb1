//! The words of a record and of its view, and their readers. A reference is the word number of a block's
//! first word.

ghost use Rattle.std.specs.Prelude.{◌≡◌, ◌+◌, ◌*◌, ◌^◌, ◌<◌, length, slice_index};
ghost use Rattle.std.specs.List.{flat_map};
ghost use Rattle.partial_words.specs.Record.{pair_words, record_block, view_size, plain_record_size, full_record_size, next_word, pairs_word, prev_word, value_word, view_word, own_view, pair_value_word, prev_of, record_value, view_of, view_len, view_pair};

/// A record of a component's chain.
#[derive(Clone, Copy, Debug, PartialEq, Eq)]
pub struct Link {
    /// The reference of the record, which is the stamp of the update that wrote it.
    pub stamp: u64,
    /// The value that the update set.
    pub value: u64,
}

// The words of a record, by their distance from its reference: the reference of the record before it, its
// value, the reference of its view, and the beginning of a view of its own.
pub(crate) const PREV: usize = 0;

pub(crate) const VALUE: usize = 1;

const VIEW: usize = 2;

const OWN_VIEW: usize = 3;

/// The number of the word of the record at word `at` that holds the reference of the record before it.
#[inline(always)]
pub fn prev_word(at: u64) -> u64
    requires { own_view at < 2 ^ 64 }
    ensures { result ≡ prev_word at }
{
    at + PREV as u64
}

/// The number of the word that holds the value of the record at word `at`.
#[inline(always)]
pub fn value_word(at: u64) -> u64
    requires { own_view at < 2 ^ 64 }
    ensures { result ≡ value_word at }
{
    at + VALUE as u64
}

/// The number of the word that holds the reference of the view of the record at word `at`.
#[inline(always)]
pub fn view_word(at: u64) -> u64
    requires { own_view at < 2 ^ 64 }
    ensures { result ≡ view_word at }
{
    at + VIEW as u64
}

/// The reference of the own view of the record at word `at`: the view follows the record's three words.
#[inline(always)]
pub fn own_view(at: u64) -> u64
    requires { own_view at < 2 ^ 64 }
    ensures { result ≡ own_view at }
{
    at + OWN_VIEW as u64
}

/// The number of the first word of the pairs of the view at word `at`.
#[inline(always)]
pub fn pairs_word(at: u64) -> u64
    requires { pairs_word at < 2 ^ 64 }
    ensures { result ≡ pairs_word at }
{
    next_word(at)
}

/// The number of the word after that one, of pairs or of indices that are read word by word.
#[inline(always)]
pub fn next_word(at: u64) -> u64
    requires { next_word at < 2 ^ 64 }
    ensures { result ≡ next_word at }
{
    at + 1
}

/// How many words a view of so many pairs has.
#[inline(always)]
pub fn view_size(pairs: u64) -> u64
    requires { pairs < 2 ^ 32 }
    ensures { result ≡ view_size pairs }
{
    1 + 2 * pairs
}

/// How many words a record without a view of its own has.
#[inline(always)]
pub fn plain_record_size() -> u64
    ensures { result ≡ plain_record_size }
{
    OWN_VIEW as u64
}

/// How many words a record with its own view of so many pairs has.
#[inline(always)]
pub fn full_record_size(pairs: u64) -> u64
    requires { pairs < 2 ^ 32 }
    ensures { result ≡ full_record_size pairs }
{
    plain_record_size() + view_size(pairs)
}

/// Word `k` of a record: the reference of the record before it, its value, and the reference of its view,
/// which is 0 for the empty view. In a record with a view of its own the number of pairs and the pairs
/// follow.
pub fn record_block_word(prev: u64, value: u64, view: u64, pairs: &[(u32, u64)], k: usize) -> u64
    requires { k < length (record_block prev value view pairs.now) }
    ensures { result ≡ slice_index (record_block prev value view pairs.now) k }
{
    match k {
        0 => prev,
        1 => value,
        2 => view,
        3 => pairs.len() as u64,
        _ => pair_word(pairs, k - 4),
    }
}

// Word k of the pairs: of each pair its index, then its value.
fn pair_word(pairs: &[(u32, u64)], k: usize) -> u64
    requires { k < 2 * length pairs.now }
    ensures { result ≡ slice_index (flat_map pair_words pairs.now) k }
{
    let (index, value) = pairs[k / 2];
    if k % 2 == 0 { u64::from(index) } else { value }
}

/// The reference of the record before the one at word `at`. It is 0 before the initial record.
pub fn prev_of(words: &[u64], at: usize) -> u64
    requires { at < length words.now }
    ensures { result ≡ prev_of words.now at }
{
    words[at + PREV]
}

/// The value of the record at word `at`.
pub fn value_of(words: &[u64], at: usize) -> u64
    requires { value_word at < length words.now }
    ensures { result ≡ record_value words.now at }
{
    words[at + VALUE]
}

/// The reference of the view of the record at word `at`. It is 0 for the empty view.
pub fn view_of(words: &[u64], at: usize) -> u64
    requires { view_word at < length words.now }
    ensures { result ≡ view_of words.now at }
{
    words[at + VIEW]
}

/// How many pairs the view at word `at` has.
pub fn view_len(words: &[u64], at: usize) -> u64
    requires { at < length words.now }
    ensures { result ≡ view_len words.now at }
{
    words[at]
}

/// Pair `k`, counted from 0, of the view at word `at`: a component's index and its value.
pub fn view_pair(words: &[u64], at: usize, k: usize) -> (u64, u64)
    requires { pair_value_word at k < length words.now }
    ensures { result ≡ view_pair words.now at k }
{
    (words[at + 1 + 2 * k], words[at + 2 + 2 * k])
}
