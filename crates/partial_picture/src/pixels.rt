//! Lengths in a drawing.

use std::fmt;
use std::ops::{Add, Mul, Sub};

/// A length or a place in a drawing, in its unit: a pixel when the drawing is shown at its own size. Sums
/// stop at the greatest number and differences at 0.
#[derive(Clone, Copy, Debug, PartialEq, Eq, PartialOrd, Ord)]
pub struct Pixels(pub u64);

impl Add<u64> for Pixels {
    ghost use Rattle.std.specs.Prelude.{◌≡◌};
    ghost use Rattle.partial_picture.specs.Lengths.{sum_of};

    type Output = Pixels;

    ghost add_gives = { λ place length sum. sum.0 ≡ sum_of place.0 length };

    fn add(self, length: u64) -> Pixels {
        Pixels(self.0.saturating_add(length))
    }
}

impl Sub<u64> for Pixels {
    ghost use Rattle.std.specs.Prelude.{◌≡◌, ◌-◌};

    type Output = Pixels;

    ghost sub_gives = { λ place length rest. rest.0 ≡ place.0 - length };

    fn sub(self, length: u64) -> Pixels {
        Pixels(self.0.saturating_sub(length))
    }
}

impl Mul<usize> for Pixels {
    ghost use Rattle.std.specs.Prelude.{◌≡◌};
    ghost use Rattle.partial_picture.specs.Lengths.{product_of};

    type Output = Pixels;

    ghost mul_gives = { λ length count product. product.0 ≡ product_of length.0 count };

    fn mul(self, count: usize) -> Pixels {
        Pixels(self.0.saturating_mul(count as u64))
    }
}

impl fmt::Display for Pixels {
    ghost use Rattle.std.specs.Prelude.{Some, decimal};

    ghost output = { λ length. Some (decimal length.0) };

    fn fmt<W: fmt::Write>(&self, f: &mut fmt::Formatter<W>) -> fmt::Result {
        write!(f, "{}", self.0)
    }
}
