// How many cases were run, and how many of them went wrong.
ghost use Rattle.std.specs.Prelude.{◌≡◌};
ghost use Rattle.parts.specs.Totals.{with_case, sum_of};

use std::fmt;

#[derive(Clone, Copy, PartialEq, Eq)]
pub struct Totals {
    pub cases: u64,
    pub wrong: u64,
}

impl Totals {
    pub const NONE: Totals = Totals { cases: 0, wrong: 0 };

    // One case more, and whether it was right.
    pub fn counted(self, right: bool) -> Totals
        ensures { result ≡ with_case self right }
    {
        Totals {
            cases: self.cases.saturating_add(1),
            wrong: if right {
                self.wrong
            } else {
                self.wrong.saturating_add(1)
            },
        }
    }

    // Both together.
    pub fn and(self, other: Totals) -> Totals
        ensures { result ≡ sum_of self other }
    {
        Totals {
            cases: self.cases.saturating_add(other.cases),
            wrong: self.wrong.saturating_add(other.wrong),
        }
    }
}

impl fmt::Display for Totals {
    fn fmt<W: fmt::Write>(&self, f: &mut fmt::Formatter<W>) -> fmt::Result {
        write!(f, "{} cases, {} wrong", self.cases, self.wrong)
    }
}
