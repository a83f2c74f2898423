// What tells a refusal by its number: a `Refusal`, a number of the caller's own, or what a check answered. Functions that hand a refusal on take any of them.
#![tactic(auto)]

ghost use Rattle.std.specs.Prelude.{◌≡◌, ℕ};
ghost use Rattle.mesh.specs.Refused.{number_of, refusal_in};

use mesh::refusals::Refusal;

// Something that has a refusal's number, 0 where it refuses nothing.
pub trait Tells: Copy {
    ghost told: { Self → ℕ };

    // Its number.
    fn tell(self) -> usize
        ensures { result ≡ told self };

    // What tells this refusal.
    fn refuse(refusal: Refusal) -> Self
        ensures { told result ≡ number_of refusal };
}

impl Tells for Refusal {
    ghost told = { number_of };

    fn tell(self) -> usize {
        self.number()
    }

    fn refuse(refusal: Refusal) -> Refusal {
        refusal
    }
}

// A number tells itself.
impl Tells for usize {
    ghost told = { λ n. n };

    fn tell(self) -> usize {
        self
    }

    fn refuse(refusal: Refusal) -> usize {
        refusal.number()
    }
}

// A check that found nothing tells 0.
impl Tells for Result<(), Refusal> {
    ghost told = { refusal_in };

    fn tell(self) -> usize {
        match self {
            Ok(()) => 0,
            Err(e) => e.number(),
        }
    }

    fn refuse(refusal: Refusal) -> Result<(), Refusal> {
        Err(refusal)
    }
}
