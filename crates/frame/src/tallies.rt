// What freeing found: the line of one frame, and the tally of many.
ghost use Rattle.std.specs.Prelude.{◌≡◌, ◌+◌, ◌^◌, ◌<◌};
ghost use Rattle.frame.specs.Found.{found_value, none_found, one_found, and_found, all_found, tally_line};

use crate::{Found, Tally, TallyLine};
use answer::{Refusal, Shown};

// What became of a frame is printed by its number.
impl Shown for Found {
    ghost shown = { found_value };

    fn value(self) -> u64 {
        self as u64
    }
}

pub fn none() -> Tally
    ensures { result ≡ none_found }
{
    Tally {
        freed: 0,
        already_free: 0,
        not_here: 0,
    }
}

pub fn one(found: Found) -> Tally
    ensures { result ≡ one_found found }
{
    match found {
        Found::Freed => Tally {
            freed: 1,
            already_free: 0,
            not_here: 0,
        },
        Found::AlreadyFree => Tally {
            freed: 0,
            already_free: 1,
            not_here: 0,
        },
        Found::NotHere => Tally {
            freed: 0,
            already_free: 0,
            not_here: 1,
        },
    }
}

// Two tallies together.
pub fn and(a: Tally, b: Tally) -> Tally
    requires { all_found a + all_found b < 2 ^ 64 }
    ensures { result ≡ and_found a b }
{
    Tally {
        freed: a.freed + b.freed,
        already_free: a.already_free + b.already_free,
        not_here: a.not_here + b.not_here,
    }
}

pub fn tally_line(a: Result<(), Refusal>, found: Tally) -> TallyLine
    ensures { result ≡ tally_line a found }
{
    TallyLine {
        number: answer::line_of(a).number,
        freed: found.freed,
        already_free: found.already_free,
        not_here: found.not_here,
    }
}
