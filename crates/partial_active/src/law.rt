//! Laws about whole getSets, over all orders of the ports' steps. The functions have no code: their
//! contracts hold of the definitions by which the machines' own contracts are stated.

ghost use Rattle.partial_active.specs.ActiveSet.{GetSetsFind, GetSetsFindInOrder, GetSetsMakeFewSteps, OrderlyAnswersArePossible};
ghost use Rattle.partial_active.specs.VacatedLists.{GetSetsKeepLists};

/// What a getSet finds, over all orders of the ports' steps. Let the words be orderly at first, and let
/// each event keep them so, take a slot only from EMPTY to a whole announcement and from that to VACATED,
/// and change no block that a slot or the list head has referred to so far. Let the events of one port be
/// the steps of a fresh getSet, which they finish. Then it finds every index of each announcement that
/// stood in a slot from its first step to its last, and no index but those of announcements that stood in a
/// slot at some moment of it. It makes at most S (m + 3) + L + 6 steps, for S slots, m components and L
/// list words.
pub fn finds_the_active_set()
    ensures finds { GetSetsFind }
    ensures steps { GetSetsMakeFewSteps }
{}

/// The order of what a getSet finds: the indices are those of the announcements that stood in the slots
/// when it loaded them, in the order of the slots and then of the positions, each once, at its first
/// appearance.
pub fn names_indices_in_order()
    ensures { GetSetsFindInOrder }
{}

/// What a getSet does with the lists of vacated slots in such a run, at each stage. It reads the list at
/// the list head and loads no slot of it. It publishes whole lists only, of the slots of the list that it
/// read and of those that it found vacated, on the words that it claimed. A failed exchange of the list
/// head changes nothing. When the list words run out, the port is marked and keeps all that it found.
pub fn keeps_vacated_lists()
    ensures { GetSetsKeepLists }
{}

/// The answers in such a run are possible: [`crate::GetSet::answer`] may be called with each of them.
pub fn orderly_answers_are_possible()
    ensures { OrderlyAnswersArePossible }
{}
