//! The sizes of a memory, and the numbers of its words.

ghost use Rattle.std.specs.Prelude.{◌≡◌, ◌+◌, ◌*◌, ◌<◌, ◌≤◌, ◌↔◌, length, IfOk, IfErr, IsTrue};
ghost use Rattle.partial_words.specs.Layout.{Layout};

use std::marker::Model;
use thiserror::Error;

/// How many ports a memory has at most: so many seals fit above a reference.
pub const MOST_PORTS: u32 = 255;

/// How many words a port claims at most beyond those of the record that it is about to write: those of 31 records without
/// a view.
pub const MOST_AHEAD: u64 = 93;

/// Which size is out of its range: the first one in this order. Nothing was made.
#[derive(Clone, Copy, Debug, PartialEq, Eq, Error)]
pub enum SizeError {
    /// There are not 1 to 65,536 components.
    #[error("components out of range")]
    Components,
    /// There are not 1 to 65,536 slots.
    #[error("slots out of range")]
    Slots,
    /// There are more than 65,536 list words.
    #[error("list words out of range")]
    Lists,
    /// There are fewer than three pool words for each component, or more than 4,194,304.
    #[error("pool words out of range")]
    Pool,
}

impl SizeError {
    ghost use Rattle.partial_words.specs.SizeFault.{size_code};

    /// The number of the refusal: 1 for `Components`, 2 for `Slots`, 3 for `Lists`, 4 for `Pool`.
    pub fn code(&self) -> u8
        ensures { result ≡ size_code self.now }
    {
        match self {
            SizeError::Components => 1,
            SizeError::Slots => 2,
            SizeError::Lists => 3,
            SizeError::Pool => 4,
        }
    }
}

/// The sizes of a memory, each in its range. They determine the number of each word; all these numbers are
/// below [`Sizes::total`].
#[derive(Clone, Copy, Debug)]
pub struct Sizes {
    m: u32,
    slots: u32,
    lists: u32,
    pool: u32,
}

impl Model for Sizes {
    ghost use Rattle.partial_words.specs.Layout.{Layout, IsLayout};

    ghost Value = { Layout };

    ghost view = { λ s. record { m = s.m; slots = s.slots; lists = s.lists; pool = s.pool } };

    ghost invariant = { λ s. IsLayout (record { m = s.m; slots = s.slots; lists = s.lists; pool = s.pool }) };

    ghost inverse = { λ l. record { m = l.m; slots = l.slots; lists = l.lists; pool = l.pool } };
}

impl Sizes {
    ghost use Rattle.partial_words.specs.Layout.{IsLayout, component_word, slot_counter, list_head, pool_counter, list_counter, slot_word, list_base, list_end, greatest_list, pool_base, pool_end, total, initial_record, first_free};
    ghost use Rattle.partial_words.specs.Chain.{opening_word};
    ghost use Rattle.partial_words.specs.SizeFault.{IsFirstFault};

    /// Makes the sizes: `m` components, and so many slots, list words and pool words.
    ///
    /// # Errors
    /// [`SizeError`]: the first size that is out of its range.
    pub fn new(m: u32, slots: u32, lists: u32, pool: u32) -> Result<Sizes, SizeError>
        ensures ok { IfOk result (λ s. (s ≡ record { m = m; slots = slots; lists = lists; pool = pool }) × IsLayout s) }
        ensures err { IfErr result (IsFirstFault (record { m = m; slots = slots; lists = lists; pool = pool })) }
    {
        if m < 1 || m > 65_536 {
            return Err(SizeError::Components);
        }
        if slots < 1 || slots > 65_536 {
            return Err(SizeError::Slots);
        }
        if lists > 65_536 {
            return Err(SizeError::Lists);
        }
        if pool < 3 * m || pool > 4_194_304 {
            return Err(SizeError::Pool);
        }
        Ok(Sizes {
            m,
            slots,
            lists,
            pool,
        })
    }

    /// How many components there are.
    pub fn m(&self) -> u32
        ensures value { result ≡ self.now.m }
        ensures sizes { IsLayout self.now }
    {
        let Sizes { m, .. } = self;
        *m
    }

    /// How many slots there are.
    pub fn slots(&self) -> u32
        ensures value { result ≡ self.now.slots }
        ensures sizes { IsLayout self.now }
    {
        self.slots
    }

    /// How many list words there are.
    pub fn lists(&self) -> u32
        ensures value { result ≡ self.now.lists }
        ensures sizes { IsLayout self.now }
    {
        self.lists
    }

    /// How many pool words there are.
    pub fn pool(&self) -> u32
        ensures value { result ≡ self.now.pool }
        ensures sizes { IsLayout self.now }
    {
        self.pool
    }

    /// The word of component `j`. It holds the reference of the current record.
    pub fn component_word(&self, j: u32) -> u32
        requires { j < self.now.m }
        ensures { result ≡ component_word self.now j }
    {
        j
    }

    /// The word that holds the number of the next slot.
    pub fn slot_counter(&self) -> u32
        ensures { result ≡ slot_counter self.now }
    {
        self.m()
    }

    /// The word that holds the reference of the current list of vacated slots, or 0.
    pub fn list_head(&self) -> u32
        ensures { result ≡ list_head self.now }
    {
        self.m + 1
    }

    /// The word that holds the number of the next free pool word.
    pub fn pool_counter(&self) -> u32
        ensures { result ≡ pool_counter self.now }
    {
        self.m + 2
    }

    /// The word that holds the number of the next free list word.
    pub fn list_counter(&self) -> u32
        ensures { result ≡ list_counter self.now }
    {
        self.m + 3
    }

    /// The word of slot `l`.
    pub fn slot_word(&self, l: u32) -> u32
        requires { l < self.now.slots }
        ensures { result ≡ slot_word self.now l }
    {
        self.m + 4 + l
    }

    /// The first list word.
    pub fn list_base(&self) -> u32
        ensures { result ≡ list_base self.now }
    {
        self.m + 4 + self.slots
    }

    /// The number after that of the last list word.
    pub fn list_end(&self) -> u32
        ensures { result ≡ list_end self.now }
    {
        self.list_base() + self.lists
    }

    /// Whether the number is that of a list word.
    pub fn is_list_word(&self, word: u64) -> bool
        ensures { IsTrue result ↔ ((list_base self.now ≤ word) × (word < list_end self.now)) }
    {
        u64::from(self.list_base()) <= word && word < u64::from(self.list_end())
    }

    /// How many list words a list of vacated slots takes at most.
    pub fn greatest_list(&self) -> u32
        ensures { result ≡ greatest_list self.now }
    {
        2 + self.slots()
    }

    /// The first pool word.
    pub fn pool_base(&self) -> u32
        ensures { result ≡ pool_base self.now }
    {
        self.list_end()
    }

    /// The number after that of the last pool word.
    pub fn pool_end(&self) -> u32
        ensures { result ≡ pool_end self.now }
    {
        self.total()
    }

    /// Whether the number is that of a pool word.
    pub fn is_pool_word(&self, word: u64) -> bool
        ensures { IsTrue result ↔ ((pool_base self.now ≤ word) × (word < pool_end self.now)) }
    {
        u64::from(self.pool_base()) <= word && word < u64::from(self.pool_end())
    }

    /// How many words there are.
    pub fn total(&self) -> u32
        ensures value { result ≡ total self.now }
        ensures sizes { IsLayout self.now }
    {
        let pool_base = self.pool_base();
        pool_base + self.pool
    }

    /// The reference of the initial record of component `j`, which is its initial stamp.
    pub fn initial_record(&self, j: u32) -> u32
        requires { j < self.now.m }
        ensures { result ≡ initial_record self.now j }
    {
        prove!(j < self.m);
        let pool_base = self.pool_base();
        pool_base + 3 * j
    }

    /// The first pool word after the initial records.
    pub fn first_free(&self) -> u32
        ensures { result ≡ first_free self.now }
    {
        let pool_base = self.pool_base();
        pool_base + 3 * self.m
    }

    /// The value at opening of word `w`, in a memory with these initial values.
    pub fn opening_word(&self, initial: &[u64], w: u32) -> u64
        requires values { length initial.now ≡ self.now.m }
        requires word { w < total self.now }
        ensures { result ≡ opening_word self.now initial.now w }
    {
        let pool_base = self.pool_base();
        if w < self.m {
            return u64::from(self.initial_record(w));
        }
        if w == self.pool_counter() {
            return u64::from(self.first_free());
        }
        if w == self.list_counter() {
            return u64::from(self.list_base());
        }
        if w < pool_base || w >= self.first_free() {
            return 0;
        }
        let k = w - pool_base;
        if k % 3 == 1 {
            initial[k as usize / 3]
        } else {
            0
        }
    }
}
