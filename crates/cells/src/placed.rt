// Places in an index, as C takes them.
use query::Run;
use refusal::Refusal;

// What is a place in an index: the number that is answered, where the part begins, and how long it is.
pub trait Placed {
    ghost use Rattle.std.specs.Prelude.{◌≡◌};
    ghost use Rattle.query.specs.Query.{Place, place_of};

    ghost placed: { Self → Place };

    fn parts(self) -> (u32, u32, u32)
        ensures { place_of result.0 result.1 result.2 ≡ placed self };
}

// What a query answers. Refused, it is an empty part at the front.
impl Placed for Result<Run, Refusal> {
    ghost use Rattle.query.specs.Query.{place};

    ghost placed = { place };

    fn parts(self) -> (u32, u32, u32) {
        match self {
            Ok(run) => (0, run.first, run.count),
            Err(refusal) => (refusal.number(), 0, 0),
        }
    }
}

// The three numbers themselves.
impl Placed for (u32, u32, u32) {
    ghost use Rattle.query.specs.Query.{place_of};

    ghost placed = { λ p. place_of p.0 p.1 p.2 };

    fn parts(self) -> (u32, u32, u32) {
        self
    }
}
