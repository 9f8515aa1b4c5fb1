//! The steps of a call on plain words, beside the machine of its port.

ghost use Rattle.std.specs.Prelude.{◌≡◌, ◌<◌, ⊤, length, IfErr, IfOk, Some};
ghost use Rattle.partial_words.specs.declared.step.Step.TheVariants.{Load};
ghost use Rattle.partial_words.specs.Chain.{AreOpeningWords};
ghost use Rattle.partial_words.specs.Layout.{IsLayout};
ghost use Rattle.partial_machine.specs.Machine.{advance, fresh, step_of};
ghost use Rattle.partial_machine.specs.Possible.{IsPossible};
ghost use Rattle.lines_tests.specs.Plain.{BeginsOn, IsPlain};

use crate::turns::turn;
use partial_core::{Core, Reply};
use partial_lines::Makes;
use partial_words::{Sizes, Step};
use std::alloc::{AllocError, Global};

/// A call is broken off: it has made all steps that it was allowed.
#[derive(Clone, Copy)]
pub struct BrokenOff;

/// The course of a call.
#[derive(Clone, Copy)]
pub struct Course {
    /// Chooses which steps of the others come between.
    pub seed: u64,
    /// How many steps the call may make in straight lines.
    pub allowed: u64,
}

/// Plain words on which three ports work. The first port's call is made in straight lines, and its machine is
/// given the answers. The machines of the others make their calls.
#[derive(Drop)]
pub struct Plain {
    /// The words.
    pub words: Vec<u64>,
    /// The machine of the first port.
    pub beside: Core,
    /// The machine of the second port.
    pub left: Core,
    /// The machine of the third port.
    pub right: Core,
    /// What is left of the course.
    pub course: Course,
    /// Whether a step was not the due one of the machine beside.
    pub differs: bool,
}

impl Makes for Plain {
    type Break = BrokenOff;

    ghost goes = { λ l. IsPlain l.words.items l.beside l.left l.right };

    ghost machine = { λ l. l.beside };

    ghost leads = { λ _ _. ⊤ };

    fn make(&mut self, step: Step) -> Result<u64, BrokenOff> {
        self.allow()?;
        let due = self.beside.step();
        self.compare(due == Some(step));
        Ok(self.follow(step))
    }

    fn load_component(&mut self, component: u64) -> Result<u64, BrokenOff> {
        self.load_due(component)
    }

    fn load(&mut self, word: u64) -> Result<u64, BrokenOff> {
        self.load_due(word)
    }

    ghost sound = { λ _ w. w.sound };

    ghost leads_itself = { λ _. tt };

    ghost leads_on = { λ _ _ _ _ _. tt };
}

// The words at opening. After the initial records all of them are 0.
fn opened_words(alloc: Global, sizes: Sizes, initial: &[u64]) -> Result<Vec<u64>, AllocError>
    requires { length initial.now ≡ sizes.m }
    ensures { IfOk result (λ words. AreOpeningWords sizes initial.now words.items) }
{
    let mut words = vec![in alloc; 0; sizes.total() as usize]?;
    for w in 0..sizes.first_free() {
        words[w as usize] = sizes.opening_word(initial, w);
    }
    Ok(words)
}

// The machines of the second and the third port.
fn others(alloc: Global, sizes: Sizes) -> Result<(Core, Core), AllocError>
    ensures { IfOk result (λ r. (r.0 ≡ fresh sizes 1) × (r.1 ≡ fresh sizes 2)) }
{
    let left = Core::new(alloc, sizes, 1)?;
    let right = Core::new(alloc, sizes, 2)?;
    Ok((left, right))
}

// The words at opening, and these machines.
fn opened(
    alloc: Global,
    sizes: Sizes,
    initial: &[u64],
) -> Result<(Vec<u64>, Core, Core), AllocError>
    requires { length initial.now ≡ sizes.m }
    ensures words { IfOk result (λ r. AreOpeningWords sizes initial.now r.0.items) }
    ensures machines { IfOk result (λ r. (r.1 ≡ fresh sizes 1) × (r.2 ≡ fresh sizes 2)) }
{
    let words = opened_words(alloc, sizes, initial)?;
    let (left, right) = others(alloc, sizes)?;
    Ok((words, left, right))
}

impl Plain {
    /// Opens the words, for a call that the first port's machine has begun, and lets the others make some turns.
    pub fn open(
        alloc: Global,
        sizes: Sizes,
        initial: &[u64],
        beside: Core,
        course: Course,
    ) -> Result<Plain, AllocError>
        requires sizes { IsLayout sizes }
        requires values { length initial.now ≡ sizes.m }
        requires begins { BeginsOn (fresh sizes 0) beside }
        ensures going { IfOk result (λ l. IsPlain l.words.items l.beside l.left l.right) }
        ensures machine { IfOk result (λ l. l.beside ≡ beside) }
    {
        let Ok((words, left, right)) = opened(alloc, sizes, initial) else {
            drop(beside);
            return Err(AllocError);
        };
        let mut plain = Plain {
            words,
            beside,
            left,
            right,
            course,
            differs: false,
        };
        plain.others(80);
        Ok(plain)
    }

    // Makes the step of the first port that is due, and returns its answer.
    fn answered(&mut self, step: Step) -> u64
        requires going { IsPlain self.old.words.items self.old.beside self.old.left self.old.right }
        requires due { step_of self.old.beside ≡ Some step }
        ensures going { IsPlain self.new.words.items self.new.beside self.new.left self.new.right }
        ensures possible { IsPossible self.old.beside result }
        ensures machine { self.new.beside ≡ advance self.old.beside result }
    {
        let answer = step.perform(&mut self.words);
        self.beside.answer(answer);
        answer
    }

    /// Makes that step, and then lets the others make some turns.
    pub fn follow(&mut self, step: Step) -> u64
        requires going { IsPlain self.old.words.items self.old.beside self.old.left self.old.right }
        requires due { step_of self.old.beside ≡ Some step }
        ensures going { IsPlain self.new.words.items self.new.beside self.new.left self.new.right }
        ensures possible { IsPossible self.old.beside result }
        ensures machine { self.new.beside ≡ advance self.old.beside result }
    {
        let answer = self.answered(step);
        self.others(20);
        answer
    }

    // Makes the load that is due, if the call is allowed one more step.
    fn load_due(&mut self, word: u64) -> Result<u64, BrokenOff>
        requires going { IsPlain self.old.words.items self.old.beside self.old.left self.old.right }
        requires due { step_of self.old.beside ≡ Some (Load word) }
        ensures going { IsPlain self.new.words.items self.new.beside self.new.left self.new.right }
        ensures possible { IfOk result (λ answer. IsPossible self.old.beside answer) }
        ensures machine { IfOk result (λ answer. self.new.beside ≡ advance self.old.beside answer) }
        ensures stays { IfErr result (λ _. self.new.beside ≡ self.old.beside) }
    {
        self.allow()?;
        let due = self.beside.step().unwrap();
        self.compare(due == Step::Load(due.word()) && u64::from(due.word()) == word);
        Ok(self.follow(due))
    }

    // Lets the call make one more step, if it is allowed.
    fn allow(&mut self) -> Result<(), BrokenOff>
        ensures allowed { self.new ≡ record self.old { course = self.new.course } }
    {
        if self.course.allowed == 0 {
            return Err(BrokenOff);
        }
        self.course.allowed -= 1;
        Ok(())
    }

    // Keeps whether a step was the due one.
    fn compare(&mut self, same: bool)
        ensures { self.new ≡ record self.old { differs = self.new.differs } }
    {
        self.differs = self.differs || !same;
    }

    // Lets the others make some turns, fewer than `most`.
    fn others(&mut self, most: u64)
        requires going { IsPlain self.old.words.items self.old.beside self.old.left self.old.right }
        requires some { 0 < most }
        ensures going { IsPlain self.new.words.items self.new.beside self.new.left self.new.right }
        ensures machine { self.new.beside ≡ self.old.beside }
    {
        let turns = self.draw() % most;
        for _turn in 0..turns {
            self.turn();
        }
    }

    // One turn of one of the others.
    fn turn(&mut self)
        requires { IsPlain self.old.words.items self.old.beside self.old.left self.old.right }
        ensures going { IsPlain self.new.words.items self.new.beside self.new.left self.new.right }
        ensures machine { self.new.beside ≡ self.old.beside }
    {
        let pick = self.draw();
        if pick % 2 == 0 {
            turn(&mut self.left, &mut self.words, pick / 2);
        } else {
            turn(&mut self.right, &mut self.words, pick / 2);
        }
    }

    // The next number of a linear congruence.
    fn draw(&mut self) -> u64
        ensures { self.new ≡ record self.old { course = self.new.course } }
    {
        self.course.seed = self
            .course
            .seed
            .wrapping_mul(6_364_136_223_846_793_005)
            .wrapping_add(1_442_695_040_888_963_407);
        self.course.seed >> 33
    }

    /// Lets the machine beside end a call that was broken off, in at most 10,000 steps.
    pub fn end(&mut self)
        requires going { IsPlain self.old.words.items self.old.beside self.old.left self.old.right }
        ensures going { IsPlain self.new.words.items self.new.beside self.new.left self.new.right }
    {
        for _step in 0..10_000 {
            let Some(step) = self.beside.step() else {
                return;
            };
            self.follow(step);
        }
    }

    /// Whether the machine beside was asked for each step that was made, and has this reply.
    pub fn ends_with(&mut self, reply: Reply) -> bool {
        !self.differs && self.beside.take() == Some(reply)
    }

    /// The reply of the machine beside, if it was asked for each step that was made, and has one.
    pub fn reply(&mut self) -> Option<Reply> {
        let reply = self.beside.take();
        if self.differs { None } else { reply }
    }
}
