//! Drawings, and what stands in them how often.

use super::examples::{
    borrowed_view_plan, count, drawn, lost_exchange_plan, refused_plan, replayed,
};
use partial_model::Called;
use partial_picture::{Form, Label, Pixels, Window, fitted, labels_of, push_escaped};
use partial_replay::{Event, Outcome};
use partial_words::Step;
use std::alloc::{AllocError, Global};
use std::process::Abort;
use std::test::Fail;

/// How many of the events have such a step.
fn steps_with<F: Fn(&Event) -> bool>(trace: &[Event], is_wanted: F) -> usize
    requires { F.IsAlwaysCallable is_wanted }
{
    let mut found = 0usize;
    for event in trace {
        if is_wanted(event) {
            found = found.saturating_add(1);
        }
    }
    found
}

/// The class of each shape, how many of them the outcome has, and how many the legend.
fn shapes(outcome: &Outcome) -> [(&'static str, usize, usize); 5] {
    let trace = &outcome.trace;
    [
        (
            "mark load",
            steps_with(trace, |event| matches!(event.step, Step::Load(_))),
            1,
        ),
        (
            "mark store",
            steps_with(trace, |event| matches!(event.step, Step::Store(..))),
            1,
        ),
        (
            "mark add",
            steps_with(trace, |event| matches!(event.step, Step::Add(..))),
            1,
        ),
        (
            "mark exchange ",
            steps_with(trace, |event| matches!(event.step, Step::Exchange(..))),
            2,
        ),
        ("entry", outcome.history.len(), 1),
    ]
}

/// Judges how often the part stands in the text.
fn judge_count(rt: &impl Abort, text: &str, part: &str, expected: usize) {
    assert_eq!(rt; count(text, part), expected, "{part}");
}

/// Judges the shapes of the outcome, which the legend has once more, and bars twice: one cut, one unfinished.
fn judge_shapes(
    rt: &impl Abort,
    alloc: Global,
    text: &str,
    outcome: &Outcome,
) -> Result<(), AllocError> {
    for (class, events, legend) in shapes(outcome) {
        let class = format!(in alloc; "class=\"{class}")?;
        judge_count(rt, text, &class, events.saturating_add(legend));
    }
    let steps = outcome.trace.len();
    judge_count(rt, text, "class=\"touched\"", steps);
    judge_count(rt, text, "class=\"touch\"", steps);
    judge_count(rt, text, "class=\"bar", outcome.calls.len() + 2);
    Ok(())
}

/// Judges that each step is drawn once.
fn judge_steps(
    rt: &impl Abort,
    alloc: Global,
    text: &str,
    trace: &[Event],
) -> Result<(), AllocError> {
    for (step, event) in trace.iter().enumerate() {
        let title = format!(in alloc; "<title>step {step} of port {}: ", event.port)?;
        judge_count(rt, text, &title, 1);
    }
    Ok(())
}

/// Judges that each call is drawn once.
fn judge_calls(
    rt: &impl Abort,
    alloc: Global,
    text: &str,
    calls: &[Called],
) -> Result<(), AllocError> {
    for called in calls {
        let title = format!(in alloc; "<title>call {} {}: ", called.port, called.number)?;
        judge_count(rt, text, &title, 1);
    }
    Ok(())
}

/// Judges the drawing of the plan's outcome, with the words that each step touches.
fn judge_drawing(
    rt: &impl Abort,
    alloc: Global,
    plan: &[u8],
    outcome: &Outcome,
) -> Result<(), Fail> {
    let text = drawn(
        alloc,
        Form::Drawing { has_words: true },
        Window::Whole,
        plan,
    )?;
    judge_shapes(rt, alloc, &text, outcome)?;
    judge_steps(rt, alloc, &text, &outcome.trace)?;
    judge_calls(rt, alloc, &text, &outcome.calls)?;
    Ok(())
}

// The legend has each shape once more, and an exchange that was lost beside one that has won.
#[test]
fn each_shape_is_drawn_once(rt: HostRuntime) -> Result<(), Fail> {
    for plan in [lost_exchange_plan(), borrowed_view_plan(), refused_plan()] {
        let outcome = replayed(rt.alloc(), plan)?;
        judge_drawing(&rt, rt.alloc(), plan, &outcome)?;
    }
    Ok(())
}

// Plans, and the title of the arrow that the drawing of each has beside those of the legend.
fn arrows() -> [(&'static [u8], Option<&'static str>); 3] {
    [
        (
            lost_exchange_plan(),
            Some("<title>stamp 27 overtook call 0 0</title>"),
        ),
        (
            borrowed_view_plan(),
            Some("<title>stamp 32 lent its view to call 0 0</title>"),
        ),
        // The second conditional update came after the entry that it shows: it wasn't overtaken.
        (refused_plan(), None),
    ]
}

/// Judges the arrows of a drawing without words, of which the legend has two.
fn judge_arrows(rt: &impl Abort, text: &str, title: Option<&str>) {
    judge_count(rt, text, "class=\"touch", 0);
    judge_count(rt, text, "class=\"arrow", 2 + usize::from(title.is_some()));
    if let Some(title) = title {
        judge_count(rt, text, title, 1);
    }
}

#[test]
fn arrows_tell_what_was_overtaken_and_lent(rt: HostRuntime) -> Result<(), Fail> {
    for (plan, title) in arrows() {
        let form = Form::Drawing { has_words: false };
        let text = drawn(rt.alloc(), form, Window::Whole, plan)?;
        judge_arrows(&rt, &text, title);
    }
    Ok(())
}

// Plans, whether their drawings show words, and their sizes. 16 steps of 26 after 116, and 120 after them, are
// narrower than the legend. The lanes are 74 high, and the legend 66 with what is free above it.
fn sizes() -> [(&'static [u8], bool, &'static str); 3] {
    [
        (
            lost_exchange_plan(),
            false,
            "width=\"660\" height=\"298\" viewBox=\"0 0 660 298\"",
        ),
        (
            borrowed_view_plan(),
            false,
            "width=\"1176\" height=\"298\" viewBox=\"0 0 1176 298\"",
        ),
        // 10 words: component 0, three counters and six pool words, 18 high each.
        (
            lost_exchange_plan(),
            true,
            "width=\"660\" height=\"478\" viewBox=\"0 0 660 478\"",
        ),
    ]
}

#[test]
fn size_of_a_drawing(rt: HostRuntime) -> Result<(), Fail> {
    for (plan, has_words, size) in sizes() {
        let text = drawn(rt.alloc(), Form::Drawing { has_words }, Window::Whole, plan)?;
        judge_count(&rt, &text, size, 1);
    }
    Ok(())
}

/// A text, and these words escaped after it.
fn escaped(alloc: Global, text: &str, words: &str) -> Result<String, AllocError> {
    let mut text = String::from_str(alloc, text)?;
    push_escaped(&mut text, words)?;
    Ok(text)
}

#[test]
fn words_are_escaped(rt: HostRuntime) -> Result<(), Fail> {
    let text = escaped(rt.alloc(), "1", "a < b & \"c\" > 'd' é")?;
    assert_eq!(rt;
        text.as_str(),
        "1a &lt; b &amp; &quot;c&quot; &gt; &#39;d&#39; é"
    );
    Ok(())
}

// The width of a room, and the words that stand in it.
fn rooms() -> [(u64, &'static str); 6] {
    [
        (0, ""),
        (20, ""),
        (21, "up…"),
        (69, "update 0…"),
        (70, "update 0 7"),
        (700, "update 0 7"),
    ]
}

/// Judges the words that stand in a room.
fn judge_room(rt: &impl Abort, alloc: Global, room: u64, wanted: &str) -> Result<(), AllocError> {
    let words = fitted(alloc, "update 0 7", Pixels(room))?;
    assert_eq!(rt; words.as_str(), wanted, "{room}");
    Ok(())
}

#[test]
fn words_are_cut_to_their_room(rt: HostRuntime) -> Result<(), Fail> {
    for (room, wanted) in rooms() {
        judge_room(&rt, rt.alloc(), room, wanted)?;
    }
    Ok(())
}

// Places, how far the words there are raised, and their room. Words of an entry are 160 wide. The fourth entry finds
// no tier free, and takes the one that ends first.
fn near_entries() -> [(u64, u64, u64); 5] {
    [
        (100, 0, 90),
        (130, 28, 530),
        (160, 56, 500),
        (190, 0, 160),
        (350, 0, 310),
    ]
}

/// The labels of entries at those places.
fn labels_of_near_entries(alloc: Global) -> Result<Vec<Label>, AllocError> {
    let mut places = Vec::new(alloc);
    for (place, _, _) in near_entries() {
        places.push(Pixels(place))?;
    }
    labels_of(alloc, &places, Pixels(660))
}

/// Judges the label of an entry at a place.
fn judge_label(rt: &impl Abort, label: Label, place: u64, raised: u64, room: u64) {
    assert_eq!(rt; label.raised(), raised, "{place}");
    assert_eq!(rt; label.room, Pixels(room), "{place}");
}

/// Judges the labels of entries at those places.
fn judge_labels(rt: &impl Abort, labels: &[Label]) {
    assert_eq!(rt; labels.len(), near_entries().len());
    for (label, (place, raised, room)) in labels.iter().zip(near_entries()) {
        judge_label(rt, *label, place, raised, room);
    }
}

#[test]
fn words_of_near_entries_stand_in_tiers(rt: HostRuntime) -> Result<(), Fail> {
    let labels = labels_of_near_entries(rt.alloc())?;
    judge_labels(&rt, &labels);
    Ok(())
}

// Both words stand whole, one tier of 28 above the other.
#[test]
fn entries_of_neighbouring_steps_are_read_whole(rt: HostRuntime) -> Result<(), Fail> {
    let plan =
        b"sizes 2 4 8 64\ninitial 10 20\nport update 0 7\nport update 1 9\nsteps 0*7 1*7 0*1 1*1\n";
    let form = Form::Drawing { has_words: false };
    let text = drawn(rt.alloc(), form, Window::Whole, plan)?;
    let rows = [
        ">component 0 value 7</text>",
        ">component 1 value 9</text>",
        "viewBox=\"0 0 660 326\"",
    ];
    for part in rows {
        judge_count(&rt, &text, part, 1);
    }
    Ok(())
}
