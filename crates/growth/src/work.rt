// Work tables: the room that growing takes.
ghost use Rattle.std.specs.Prelude.{◌≡◌, ◌||◌};
ghost use Rattle.refusal.specs.Refusal.{wrong_length};

// Refusal 2 of the work tables, by their lengths: n vertices, and m edges and links in all.
pub fn bad_work(n: usize, m: usize, ends: usize, jump: usize, lower: usize) -> bool
    ensures { result ≡ (wrong_length ends n || wrong_length jump n || wrong_length lower m) }
{
    (ends != n) | (jump != n) | (lower != m)
}
