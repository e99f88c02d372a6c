// A refusal as callers know it: any number, and any place.
#![tactic(auto)]

ghost use Rattle.std.specs.Prelude.{◌≡◌};
ghost use Rattle.refusals.specs.declared.Numbered.{Numbered};
ghost use Rattle.refusals.specs.Numbers.{numbered};

use task::Refusal;

// The number of a cause, which may be none of this repository's, and the place where it lies.
#[derive(Clone, Copy)]
pub struct Numbered {
    pub number: u8,
    pub place: u16,
}

// What callers are told of a refusal.
pub trait Told: Copy {
    ghost told: { Self → Numbered };

    fn told(self) -> Numbered
        ensures { result ≡ told self };
}

impl Told for Numbered {
    ghost told = { λ r. r };

    fn told(self) -> Numbered {
        self
    }
}

impl Told for Refusal {
    ghost told = { numbered };

    fn told(self) -> Numbered {
        Numbered {
            number: self.cause.number(),
            place: self.place,
        }
    }
}
