//! The numbers of the words of a long-lived memory.

ghost use Rattle.std.specs.Prelude.{◌≡◌, ◌+◌, ◌<◌};
ghost use Rattle.partial_epochs.specs.Layout.{base, control_size, own_word, set_word, span, whole};
ghost use Rattle.partial_words.specs.Layout.{first_free};
ghost use Rattle.partial_long_lived.specs.Shape.{bare, shape_plan};

use crate::shape::Shape;

impl Shape {
    // The word where the arenas begin. The words before it are padded so that it lies two words before a multiple of 16.
    #[inline(always)]
    fn first(&self) -> u64
        ensures { result ≡ control_size (shape_plan self.now bare) }
    {
        let control = 1 + u64::from(self.ports) + u64::from(self.arenas);
        control + 15 - (control + 1) % 16
    }

    // How many words an arena has.
    #[inline(always)]
    fn span(&self) -> u64
        ensures { result ≡ span (shape_plan self.now bare) }
    {
        u64::from(self.sizes.total()) + u64::from(self.sizes.m())
    }

    /// The first word of arena `x`.
    #[inline(always)]
    pub fn base(&self, x: u32) -> u64
        requires { x < self.now.arenas }
        ensures { result ≡ base (shape_plan self.now bare) x }
    {
        self.first() + u64::from(x) * self.span()
    }

    /// How many words there are.
    pub fn whole(&self) -> u64
        ensures { result ≡ whole (shape_plan self.now bare) }
    {
        self.first() + u64::from(self.arenas) * self.span()
    }

    /// The owner word of arena `x`.
    #[inline(always)]
    pub fn own_word(&self, x: u32) -> u64
        requires { x < self.now.arenas }
        ensures { result ≡ own_word (shape_plan self.now bare) x }
    {
        1 + u64::from(self.ports) + u64::from(x)
    }

    /// The word that the owner of arena `x`, which begins at `first`, sets as number `i`: those before the list words first,
    /// from the last one down, then the initial records and the carried stamps.
    #[inline(always)]
    pub fn set_word(&self, first: u64, x: u32, i: u32) -> u64
        requires first { first ≡ base (shape_plan self.now bare) x }
        requires inside { x < self.now.arenas }
        requires word { i < first_free self.now.sizes + self.now.sizes.m }
        ensures { result ≡ set_word (shape_plan self.now bare) x i }
    {
        let first_free = self.sizes.first_free();
        let front = self.sizes.list_base();
        if i < front {
            first + u64::from(front - (i + 1))
        } else if i < first_free {
            first + u64::from(i)
        } else {
            first + self.carried + u64::from(i - first_free)
        }
    }
}
