//! Laws about the words. The functions have no code: their contracts hold of the definitions.

ghost use Rattle.partial_words.specs.Announcement.{AnnouncementsReadBack};
ghost use Rattle.partial_words.specs.Chain.{LastEntriesHeadChains, OpeningWordsAgree, RecordsLieWithin};
ghost use Rattle.partial_words.specs.Layout.{RegionsAreApart};
ghost use Rattle.partial_words.specs.Record.{RecordsReadBack};
ghost use Rattle.partial_words.specs.VacatedList.{ListsReadBack};

/// Each word below the total is in exactly one region, whatever the sizes are.
pub fn regions_are_apart()
    ensures { RegionsAreApart }
{}

/// The words at opening agree with the empty history: each component word names its initial record.
pub fn opening_words_agree()
    ensures { OpeningWordsAgree }
{}

/// The chain of a component gains the last entry of a history at its head when the entry is for that
/// component, and otherwise stays as it was. Before the first entry it has the initial record alone.
pub fn last_entries_head_chains()
    ensures { LastEntriesHeadChains }
{}

/// What the writer of a record was given, its readers return, for every record in the words.
pub fn records_read_back()
    ensures { RecordsReadBack }
{}

/// In words that agree with a history all records lie within the words: those of the components, those of
/// the entries, and those before them.
pub fn records_lie_within()
    ensures { RecordsLieWithin }
{}

/// What the writer of an announcement was given, its readers return, for every announcement in the words.
pub fn announcements_read_back()
    ensures { AnnouncementsReadBack }
{}

/// What the writer of a list was given, its readers return, for every list in the words.
pub fn lists_read_back()
    ensures { ListsReadBack }
{}
