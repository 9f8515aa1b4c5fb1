//! The place of a finished scan in the history: the least prefix, not shorter than the history at the
//! scan's begin, that shows its values. The search goes backwards from the present length, does constant
//! work for each entry, and uses scratch room that is made once.

ghost use Rattle.std.specs.Prelude.{ℕ, ◌≡◌, ◌==◌, ◌+◌, ◌<◌, ◌≤◌, false, Some, None, IfOk, length, slice_index, slice_index_or, slice_set, slice_get, count_by};
ghost use Rattle.std.specs.List.{AllByRecursion};
ghost use Rattle.partial_model.specs.declared.history.Applied.{Applied};
ghost use Rattle.partial_model.specs.declared.history.Opening.{Opening};
ghost use Rattle.partial_words.specs.Chain.{Agrees};
ghost use Rattle.partial_words.specs.Record.{prev_of, record_value};
ghost use Rattle.partial_replay.specs.ScanPlace.{AllHave, AreWantedComponents, AreMarked, AreMarksOf, AreWanted, HasRecord, HasRecords, IsEmpty, IsLeast, IsLeft, ShowsValues, marks_before, values_after, values_now};

use partial_model::Applied;
use partial_words::PlainWords;
use std::alloc::{AllocError, Global};
use std::marker::Model;

// Which components are marked, and how many.
#[derive(Debug, Drop)]
struct Marks {
    marks: Vec<bool>,
    count: usize,
}

impl Model for Marks {
    ghost use Rattle.std.specs.Prelude.{◌≡◌, Bool, List, count_by};

    ghost Value = { List Bool };

    ghost view = { λ m. m.marks.items };

    ghost invariant = { λ m. m.count ≡ count_by (λ b. b) m.marks.items };
}

impl Marks {
    // Marks the component, or takes its mark away.
    fn set(&mut self, component: usize, marked: bool)
        requires { component < length self.old }
        ensures { self.new ≡ slice_set self.old component marked }
    {
        let before = self.marks[component];
        self.marks[component] = marked;
        if marked && !before {
            self.count += 1;
        }
        if before && !marked {
            self.count -= 1;
        }
    }

    // Whether no component is marked.
    fn are_none(&self) -> bool
        ensures { result ≡ (count_by (λ b. b) self.now == 0) }
    {
        self.count == 0
    }
}

// Sets the value that each component should have, and marks those that have another value now.
fn want(
    wanted: &mut [Option<u64>],
    differing: &mut Marks,
    words: &PlainWords,
    components: &[u32],
    values: &[u64],
)
    requires room { length wanted.old ≡ length differing.old }
    requires none { (j : ℕ) → slice_index_or wanted.old j None ≡ None }
    requires clear { (j : ℕ) → slice_index_or differing.old j false ≡ false }
    requires records { HasRecords words.now (length wanted.old) }
    requires components { AllByRecursion (λ j. j < length wanted.old) components.now }
    requires values { length values.now ≡ length components.now }
    ensures wanted_room { length wanted.new ≡ length wanted.old }
    ensures differing_room { length differing.new ≡ length differing.old }
    ensures wanted { AreWanted wanted.new components.now values.now (length components.now) }
    ensures marked { AreMarked wanted.new differing.new (values_now words.now) }
{
    for k in 0..components.len() {
        let component = components[k] as usize;
        let value = values[k];
        wanted[component] = Some(value);
        let now = words.value_of(words.word(component) as usize);
        differing.set(component, value != now);
    }
}

// Undoes an entry of the history: its component has the value from before it, and is marked if that
// differs.
fn take_back(wanted: &[Option<u64>], differing: &mut Marks, words: &PlainWords, entry: Applied)
    requires room { length wanted.now ≡ length differing.old }
    requires record { HasRecord words.now (length wanted.now) entry }
    ensures { differing.new ≡ marks_before (slice_index_or wanted.now entry.component None) differing.old
        entry.component (record_value words.now (prev_of words.now entry.stamp)) }
{
    let component = entry.component as usize;
    if let Some(value) = wanted[component] {
        let before = words.prev_of(entry.stamp as usize);
        differing.set(component, value != words.value_of(before as usize));
    }
}

// The least prefix, not shorter than `began`, after which each component has its wanted value, if there is
// one. The marks are those of the whole history at the start, and those at `began` at the end.
fn least_prefix(
    wanted: &[Option<u64>],
    differing: &mut Marks,
    words: &PlainWords,
    history: &[Applied],
    began: usize,
) -> usize
    requires room { length wanted.now ≡ length differing.old }
    requires entries { (k : ℕ) (e : Applied) → slice_get history.now k ≡ Some e →
        HasRecord words.now (length wanted.now) e }
    ensures room { length differing.new ≡ length differing.old }
    ensures others { (j : ℕ) → slice_index_or wanted.now j None ≡ None →
        slice_index_or differing.new j false ≡ slice_index_or differing.old j false }
    ensures least { (o : Opening) (shown : ℕ) → Agrees o words.now history.now → AreWantedComponents o wanted.now
        → AreMarked wanted.now differing.old (values_now words.now) → began ≤ shown → shown ≤ length history.now
        → AllHave wanted.now (values_after o history.now shown)
        → IsLeast (λ n. AllHave wanted.now (values_after o history.now n)) began (length history.now) result }
{
    let mut least = history.len();
    for place in (began..history.len()).rev() {
        let entry = history[place];
        take_back(wanted, differing, words, entry);
        if differing.are_none() {
            least = place;
        }
    }
    least
}

// Removes all wanted values and all marks.
fn forget(wanted: &mut [Option<u64>], differing: &mut Marks, components: &[u32])
    requires room { length wanted.old ≡ length differing.old }
    requires components { AllByRecursion (λ j. j < length wanted.old) components.now }
    requires only { IsLeft wanted.old components.now 0 }
    requires others { AreMarksOf wanted.old differing.old }
    ensures wanted_room { length wanted.new ≡ length wanted.old }
    ensures empty { IsEmpty wanted.new differing.new }
{
    for k in 0..components.len() {
        let component = components[k] as usize;
        wanted[component] = None;
        differing.set(component, false);
    }
}

/// The scratch room of the search for the place of a scan: for each component its wanted value, and whether
/// it differs. It is empty between searches. To a contract it is the number of components that it has room
/// for.
#[derive(Debug, Drop)]
pub struct Wanted {
    wanted: Vec<Option<u64>>,
    differing: Marks,
}

impl Model for Wanted {
    ghost use Rattle.std.specs.Prelude.{ℕ};
    ghost use Rattle.std.specs.Vec.{vec_len};
    ghost use Rattle.partial_replay.specs.ScanPlace.{IsEmpty};

    ghost Value = { ℕ };

    ghost view = { λ w. vec_len w.wanted };

    ghost invariant = { λ w. IsEmpty w.wanted.items w.differing };
}

impl Wanted {
    /// Makes the room for so many components.
    ///
    /// # Errors
    /// [`AllocError`] when an allocation was refused.
    pub fn new(alloc: Global, components: usize) -> Result<Wanted, AllocError>
        ensures { IfOk result (λ room. room ≡ components) }
    {
        Ok(Wanted {
            wanted: vec![in alloc; None; components]?,
            differing: Marks {
                marks: vec![in alloc; false; components]?,
                count: 0,
            },
        })
    }

    /// The least prefix of the history, not shorter than `began`, that shows the values at the positions,
    /// if there is one. `words` are those after the whole history. The work is constant for each position
    /// and for each entry from `began` on.
    pub fn scan_place(
        &mut self,
        history: &[Applied],
        words: &PlainWords,
        began: usize,
        components: &[u32],
        values: &[u64],
    ) -> usize
        requires records { HasRecords words.now self.old }
        requires entries { (k : ℕ) (e : Applied) → slice_get history.now k ≡ Some e → HasRecord words.now self.old e }
        requires components { AllByRecursion (λ j. j < self.old) components.now }
        requires values { length values.now ≡ length components.now }
        ensures room { self.new ≡ self.old }
        ensures least { (o : Opening) (shown : ℕ) → Agrees o words.now history.now →
            AllByRecursion (λ j. j < length o.values) components.now
            → began ≤ shown → shown ≤ length history.now → ShowsValues o history.now components.now values.now shown
            → IsLeast (ShowsValues o history.now components.now values.now) began (length history.now) result }
    {
        want(
            &mut self.wanted,
            &mut self.differing,
            words,
            components,
            values,
        );
        let least = least_prefix(&self.wanted, &mut self.differing, words, history, began);
        forget(&mut self.wanted, &mut self.differing, components);
        least
    }
}
