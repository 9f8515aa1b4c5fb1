//! What a picture shows of a replay.

ghost use Rattle.std.specs.Prelude.{◌≡◌, ◌≢◌, ◌≤◌, ◌-◌, All, map, length, IfOk, IfSome, MatchResult};
ghost use Rattle.std.specs.List.{filter_map};
ghost use Rattle.partial_picture.specs.Arrows.{IsArrowWithin, arrow_seen, arrows_in};
ghost use Rattle.partial_picture.specs.Bars.{BarStandsIn, bar_of, bar_seen, bars_in};
ghost use Rattle.partial_picture.specs.Drawn.{SpanHasRoom, drawn_of};
ghost use Rattle.partial_picture.specs.Made.{calls_made};
ghost use Rattle.partial_picture.specs.Marks.{AreTouched, mark_of, marks_in};
ghost use Rattle.partial_picture.specs.Pins.{pin_at, pins_at, won_steps};

use crate::arrows::arrows_of;
use crate::fault::PictureError;
use crate::spans::{Made, adds_entry, entry_steps, made_by_calls, port_steps};
use crate::window::{Span, Window};
use partial_model::{Applied, Called};
use partial_replay::{Event, Outcome};
use partial_words::{Sizes, Step};
use std::alloc::{AllocError, Global};

/// The shape of a step's mark.
#[derive(Clone, Copy, Debug, PartialEq, Eq)]
pub enum Shape {
    /// A load.
    Load,
    /// A store.
    Store,
    /// An exchange that won.
    Won,
    /// An exchange that failed.
    Lost,
    /// An add.
    Add,
}

/// The mark of a step. Marks are those of the window's steps, in order.
#[derive(Clone, Copy, Debug, PartialEq, Eq)]
pub struct Mark {
    /// The step with its answer.
    pub event: Event,
    /// The shape that shows what the step did.
    pub shape: Shape,
}

/// The bar of a call.
#[derive(Clone, Copy, Debug)]
pub struct Bar<'a> {
    /// The call, as in the outcome.
    pub called: &'a Called,
    /// Its marks in the window, counted from 0. When it has none, it is drawn before the mark `first`.
    pub marks: Span,
    /// Whether it has no step before the window.
    pub begins: bool,
    /// Whether it has no step after the window.
    pub ends: bool,
}

/// The pin of an entry of the history.
#[derive(Clone, Copy, Debug, PartialEq, Eq)]
pub struct Pin {
    /// The entry.
    pub entry: Applied,
    /// Its place in the history, counted from 0.
    pub place: usize,
    /// The mark of the exchange that applied it.
    pub mark: usize,
}

/// What an arrow says.
#[derive(Clone, Copy, Debug, PartialEq, Eq)]
pub enum ArrowKind {
    /// A won exchange overtook an update.
    Overtook,
    /// A scan took the view of a record.
    Lent,
}

/// An arrow from the exchange that applied an entry to the step of a call that met the entry.
#[derive(Clone, Copy, Debug)]
pub struct Arrow<'a> {
    /// What the arrow says.
    pub kind: ArrowKind,
    /// The stamp of the entry.
    pub stamp: u64,
    /// The mark at which the arrow begins.
    pub from: usize,
    /// The mark at which the arrow ends.
    pub to: usize,
    /// The call at which the arrow ends.
    pub called: &'a Called,
}

/// A picture of a replay: what is drawn. Where it is drawn is the layout's.
#[derive(Debug, Drop)]
pub struct Picture<'a> {
    /// The sizes of the memory.
    pub sizes: Sizes,
    /// The steps that are drawn, counted from 0.
    pub window: Span,
    /// How many steps the replay has.
    pub steps: usize,
    /// How many ports there are. Each has a lane.
    pub ports: usize,
    /// The marks of the steps, in order.
    pub marks: Vec<Mark>,
    /// The bars of the calls.
    pub bars: Vec<Bar<'a>>,
    /// The pins of the entries, in the order of the history.
    pub pins: Vec<Pin>,
    /// The arrows.
    pub arrows: Vec<Arrow<'a>>,
    /// The numbers of the words that the marks touch, each once, rising.
    pub words: Vec<u32>,
}

impl Mark {
    /// Makes the mark of an event.
    pub fn of(event: Event) -> Mark
        ensures { result ≡ mark_of event }
    {
        let shape = match event.step {
            Step::Load(_) => Shape::Load,
            Step::Store(..) => Shape::Store,
            Step::Exchange(_, old, _) if event.answer == old => Shape::Won,
            Step::Exchange(..) => Shape::Lost,
            Step::Add(..) => Shape::Add,
        };
        Mark { event, shape }
    }
}

impl<'a> Picture<'a> {
    /// Makes the picture of a window of a replay with these sizes and so many ports.
    ///
    /// # Errors
    ///
    /// `OutOfMemory` when an allocation was refused. `Window` and `TooMany` when the window can't be drawn, as
    /// [`Window::drawn`] says.
    pub fn of(
        alloc: Global,
        sizes: Sizes,
        ports: usize,
        outcome: &'a Outcome,
        window: Window,
    ) -> Result<Picture<'a>, PictureError>
        // The window is the one that is asked for, and a refusal says what is wrong with it.
        ensures window { MatchResult result
            (λ picture. drawn_of window (length outcome.now.trace.items) ≡ Ok picture.window)
            (λ e. e ≢ PictureError.OutOfMemory → drawn_of window (length outcome.now.trace.items) ≡ Err e) }
        // One mark for each event of the window, in order.
        ensures marks { IfOk result (λ picture. picture.marks.items ≡ marks_in picture.window outcome.now.trace.items) }
        // One pin for each entry of the history whose exchange is in the window, in order and at its mark.
        ensures pins { IfOk result (λ picture. picture.pins.items
            ≡ pins_at picture.window outcome.now.history.items (won_steps sizes.m outcome.now.trace.items)) }
        // One bar for each call of a port that has a step in the window, or is drawn between two of its steps.
        ensures bars { IfOk result (λ picture. map bar_seen picture.bars.items
            ≡ bars_in picture.window (length outcome.now.trace.items)
            (calls_made sizes.m ports outcome.now.trace.items outcome.now.calls.items)) }
        // One arrow to each call that was overtaken or took a view, when the window has both its ends.
        ensures arrows { IfOk result (λ picture. map arrow_seen picture.arrows.items
            ≡ arrows_in sizes.m picture.window outcome.now.trace.items outcome.now.history.items
            (won_steps sizes.m outcome.now.trace.items)
            (calls_made sizes.m ports outcome.now.trace.items outcome.now.calls.items)) }
        // Bars and arrows are at marks that exist.
        ensures bars_stand { IfOk result (λ picture.
            All (BarStandsIn (picture.window.behind - picture.window.first)) picture.bars.items) }
        ensures arrows_stand { IfOk result (λ picture.
            All (IsArrowWithin (picture.window.behind - picture.window.first)) picture.arrows.items) }
        // The words are those that the marks touch, each once, rising.
        ensures words { IfOk result (λ picture. AreTouched picture.marks.items picture.words.items) }
    {
        let span = window.drawn(outcome.trace.len())?;
        Ok(Picture::of_span(alloc, sizes, ports, outcome, span)?)
    }

    /// Makes the picture of these steps of a replay.
    fn of_span(
        alloc: Global,
        sizes: Sizes,
        ports: usize,
        outcome: &'a Outcome,
        window: Span,
    ) -> Result<Picture<'a>, AllocError>
        requires { SpanHasRoom (length outcome.now.trace.items) window }
        ensures window { IfOk result (λ picture. picture.window ≡ window) }
        ensures marks { IfOk result (λ picture. picture.marks.items ≡ marks_in window outcome.now.trace.items) }
        ensures pins { IfOk result (λ picture. picture.pins.items
            ≡ pins_at window outcome.now.history.items (won_steps sizes.m outcome.now.trace.items)) }
        ensures bars { IfOk result (λ picture. map bar_seen picture.bars.items
            ≡ bars_in window (length outcome.now.trace.items)
            (calls_made sizes.m ports outcome.now.trace.items outcome.now.calls.items)) }
        ensures bars_stand { IfOk result (λ picture.
            All (BarStandsIn (window.behind - window.first)) picture.bars.items) }
        ensures arrows { IfOk result (λ picture. map arrow_seen picture.arrows.items
            ≡ arrows_in sizes.m window outcome.now.trace.items outcome.now.history.items
            (won_steps sizes.m outcome.now.trace.items)
            (calls_made sizes.m ports outcome.now.trace.items outcome.now.calls.items)) }
        ensures arrows_stand { IfOk result (λ picture.
            All (IsArrowWithin (window.behind - window.first)) picture.arrows.items) }
        ensures words { IfOk result (λ picture. AreTouched picture.marks.items picture.words.items) }
    {
        let steps = outcome.trace.len();
        let m = sizes.m() as usize;
        let entries = entry_steps(alloc, m, &outcome.trace)?;
        let own = port_steps(alloc, ports, &outcome.trace)?;
        let made = made_by_calls(alloc, outcome, &own, &entries)?;
        let marks = marks_of(alloc, &outcome.trace[window.first..window.behind])?;
        Ok(Picture {
            sizes,
            window,
            steps,
            ports,
            bars: bars_of(alloc, window, steps, &made)?,
            pins: pins_of(alloc, window, &outcome.history, &entries)?,
            arrows: arrows_of(alloc, m, window, outcome, &made, &entries)?,
            words: words_of(alloc, &marks)?,
            marks,
        })
    }
}

/// A mark for each of these events, in order.
fn marks_of(alloc: Global, events: &[Event]) -> Result<Vec<Mark>, AllocError>
    ensures { IfOk result (λ v. v.items ≡ map mark_of events.now) }
{
    events.iter().map(|event| Mark::of(*event)).collect(alloc)
}

/// The bar of a call that has a step in the window or, without any step, is drawn in it. A window that ends
/// with the replay also has the calls after the last step.
fn bar_in<'a>(window: Span, steps: usize, made: &Made<'a, '_>) -> Option<Bar<'a>>
    requires { window.first ≤ window.behind }
    ensures value { result ≡ bar_of window steps made.now }
    ensures stands { IfSome result (BarStandsIn (window.behind - window.first)) }
{
    let Span { first, behind } = made.span;
    let stands = match made.span.is_empty() {
        true => window.contains(first) || (first == steps && window.behind == steps),
        false => first < window.behind && window.first < behind,
    };
    stands.then_some(Bar {
        called: made.called,
        marks: Span {
            first: first.max(window.first).saturating_sub(window.first),
            behind: behind.min(window.behind).saturating_sub(window.first),
        },
        begins: window.first <= first,
        ends: behind <= window.behind,
    })
}

/// A bar for each call that is drawn in the window.
fn bars_of<'a>(
    alloc: Global,
    window: Span,
    steps: usize,
    made: &[Made<'a, '_>],
) -> Result<Vec<Bar<'a>>, AllocError>
    requires { window.first ≤ window.behind }
    ensures items { IfOk result (λ bars. bars.items ≡ filter_map (bar_of window steps) made.now) }
    ensures stand { IfOk result (λ bars. All (BarStandsIn (window.behind - window.first)) bars.items) }
{
    made.iter()
        .filter_map(|call| bar_in(window, steps, call))
        .collect(alloc)
}

/// The pin of an entry, when its exchange is in the window.
fn pin_at(window: Span, place: usize, entry: Applied, step: usize) -> Option<Pin>
    ensures { result ≡ pin_at window place entry step }
{
    if !window.contains(step) {
        return None;
    }
    Some(Pin {
        entry,
        place,
        mark: step - window.first,
    })
}

/// A pin for each entry whose exchange is in the window.
fn pins_of(
    alloc: Global,
    window: Span,
    history: &[Applied],
    steps: &[usize],
) -> Result<Vec<Pin>, AllocError>
    ensures { IfOk result (λ pins. pins.items ≡ pins_at window history.now steps.now) }
{
    history
        .iter()
        .zip(steps)
        .enumerate()
        .filter_map(|(place, (entry, step))| pin_at(window, place, *entry, *step))
        .collect(alloc)
}

/// The words that the marks touch.
fn words_of(alloc: Global, marks: &[Mark]) -> Result<Vec<u32>, AllocError>
    ensures { IfOk result (λ words. AreTouched marks.now words.items) }
{
    let mut words: Vec<u32> = marks
        .iter()
        .map(|mark| mark.event.step.word())
        .collect(alloc)?;
    words.sort_unstable();
    words.dedup();
    Ok(words)
}
