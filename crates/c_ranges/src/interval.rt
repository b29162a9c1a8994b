//! Intervals of whole numbers.
ghost use Rattle.std.specs.Prelude.{◌≡◌, pos, ◌≤ℤ◌};
ghost use Rattle.std.specs.Ordering.{int_eq};
ghost use Rattle.c_tree.specs.Ranges.{only, full, lies_in, fitted, hull, truth_range, from_zero_up, is_positive_value};
ghost use Rattle.c_ranges.specs.Bounds.{interval_of, HeldBy};

use ido_ints::Kind;

/// The whole numbers from `lo` to `hi`.
#[derive(Clone, Copy, PartialEq, Eq, Debug)]
pub struct Interval {
    pub lo: i128,
    pub hi: i128,
}

impl Interval {
    /// One number.
    pub(crate) fn only(number: i128) -> Interval
        ensures { interval_of result ≡ only number }
    {
        Interval {
            lo: number,
            hi: number,
        }
    }

    /// All numbers of a kind.
    pub(crate) fn full(kind: Kind) -> Interval
        ensures value { interval_of result ≡ full kind }
        ensures held { HeldBy kind result }
    {
        Interval {
            lo: kind.least(),
            hi: kind.greatest(),
        }
    }

    /// What a truth value may be.
    pub(crate) fn truth() -> Interval
        ensures value { interval_of result ≡ truth_range }
        ensures held { HeldBy Kind.Int result }
    {
        Interval { lo: 0, hi: 1 }
    }

    /// Whether it is part of another.
    pub(crate) fn lies_in(self, outer: Interval) -> bool
        ensures { result ≡ lies_in (interval_of self) (interval_of outer) }
    {
        outer.lo <= self.lo && self.hi <= outer.hi
    }

    /// Itself where the kind holds all of it, else all numbers of the kind.
    pub(crate) fn fitted(self, kind: Kind) -> Interval
        requires { self.lo ≤ℤ self.hi }
        ensures value { interval_of result ≡ fitted kind (interval_of self) }
        ensures held { HeldBy kind result }
    {
        let all = Interval::full(kind);
        if self.lies_in(all) { self } else { all }
    }

    /// The least range that holds both.
    pub(crate) fn hull(self, other: Interval) -> Interval
        ensures { interval_of result ≡ hull (interval_of self) (interval_of other) }
    {
        Interval {
            lo: if self.lo <= other.lo {
                self.lo
            } else {
                other.lo
            },
            hi: if self.hi <= other.hi {
                other.hi
            } else {
                self.hi
            },
        }
    }

    /// Whether there is no negative number in it.
    pub(crate) fn is_from_zero_up(self) -> bool
        ensures { result ≡ from_zero_up (interval_of self) }
    {
        0 <= self.lo
    }

    /// Whether it is one number.
    pub(crate) fn is_value(self) -> bool
        ensures { result ≡ int_eq self.lo self.hi }
    {
        self.lo == self.hi
    }

    /// Whether it is one number, and a positive one.
    pub(crate) fn is_positive_value(self) -> bool
        ensures { result ≡ is_positive_value (interval_of self) }
    {
        self.is_value() && 0 < self.lo
    }
}
