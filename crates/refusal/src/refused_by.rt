// What a call is refused by. A call that hands on what another was refused by takes a refusal or any number.
ghost use Rattle.std.specs.Prelude.{◌≡◌, ℕ};
ghost use Rattle.refusal.specs.Refusal.{refusal_number};

use crate::Refusal;

// A refusal, or a number in the place of one, of which 0 refuses nothing.
pub trait RefusedBy: Copy {
    ghost as_number: { Self → ℕ };

    fn of(refusal: Refusal) -> Self
        ensures { as_number result ≡ refusal_number refusal };

    fn number(self) -> u8
        ensures { result ≡ as_number self };
}

impl RefusedBy for Refusal {
    ghost as_number = { refusal_number };

    fn of(refusal: Refusal) -> Refusal {
        refusal
    }

    fn number(self) -> u8 {
        Refusal::number(self)
    }
}

impl RefusedBy for u8 {
    ghost as_number = { λ x. x };

    fn of(refusal: Refusal) -> u8 {
        refusal.number()
    }

    fn number(self) -> u8 {
        self
    }
}
