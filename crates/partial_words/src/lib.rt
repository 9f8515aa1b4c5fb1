//! The words that the ports of a partial snapshot object share: the sizes and the regions, the blocks in
//! them, and the atomic steps with their plain meaning.
#![tactic(auto)]

pub mod announcement;
pub mod block;
pub mod law;
pub mod list;
pub mod plain;
pub mod record;
pub mod sizes;
pub mod step;
pub mod trace;

pub use announcement::{
    announced, announced_len, announcement_block_word, announcement_size, indices_word,
    least_announcement,
};
pub use block::Block;
pub use law::{
    announcements_read_back, last_entries_head_chains, lists_read_back, opening_words_agree,
    records_lie_within, records_read_back, regions_are_apart,
};
pub use list::{interval, intervals_word, list_block_word, list_len, list_size};
pub use plain::PlainWords;
pub use record::{
    Link, full_record_size, next_word, own_view, pairs_word, plain_record_size, prev_of, prev_word,
    record_block_word, value_of, value_word, view_len, view_of, view_pair, view_size, view_word,
};
pub use sizes::{MOST_AHEAD, MOST_PORTS, SizeError, Sizes};
pub use step::{Event, Step};
pub use trace::Trace;
