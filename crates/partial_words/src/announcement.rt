//! The words of an announcement: the indices of the components that a scan asks for.

ghost use Rattle.std.specs.Prelude.{◌≡◌, ◌+◌, ◌^◌, ◌<◌, length, slice_index};
ghost use Rattle.partial_words.specs.Announcement.{announcement_block, announcement_size, announced_word, announced_len, announced_index, indices_word, least_announcement};

/// How many words an announcement of so many indices has.
pub fn announcement_size(indices: u64) -> u64
    requires { indices < 2 ^ 32 }
    ensures { result ≡ announcement_size indices }
{
    1 + indices
}

/// How many words an announcement has at least: one of one index.
#[inline(always)]
pub fn least_announcement() -> u64
    ensures { result ≡ least_announcement }
{
    announcement_size(1)
}

/// The number of the first word of the indices of the announcement at word `at`.
#[inline(always)]
pub fn indices_word(at: u32) -> u32
    requires { indices_word at < 2 ^ 32 }
    ensures { result ≡ indices_word at }
{
    at + 1
}

/// Word `k` of an announcement: the number of its indices, then the indices.
pub fn announcement_block_word(indices: &[u32], k: usize) -> u64
    requires { k < length (announcement_block indices.now) }
    ensures { result ≡ slice_index (announcement_block indices.now) k }
{
    match k {
        0 => indices.len() as u64,
        _ => u64::from(indices[k - 1]),
    }
}

/// How many indices the announcement at word `at` has.
pub fn announced_len(words: &[u64], at: usize) -> u64
    requires { at < length words.now }
    ensures { result ≡ announced_len words.now at }
{
    words[at]
}

/// Index `k`, counted from 0, of the announcement at word `at`.
pub fn announced(words: &[u64], at: usize, k: usize) -> u64
    requires { announced_word at k < length words.now }
    ensures { result ≡ announced_index words.now at k }
{
    words[at + 1 + k]
}
