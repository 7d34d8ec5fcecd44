// Refusals, as C takes them.
use refusal::Refusal;

// What has a refusal's number: one of the calls' refusals, or a number itself.
pub trait Numbered {
    ghost use Rattle.std.specs.Prelude.{◌≡◌, ℕ};

    ghost numbered: { Self → ℕ };

    fn as_number(self) -> u32
        ensures { result ≡ numbered self };
}

impl Numbered for Refusal {
    ghost use Rattle.refusal.specs.Numbers.{number_of};

    ghost numbered = { number_of };

    fn as_number(self) -> u32 {
        Refusal::number(self)
    }
}

impl Numbered for u32 {
    ghost numbered = { λ x. x };

    fn as_number(self) -> u32 {
        self
    }
}
