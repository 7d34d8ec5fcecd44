// Whether nets are the same.
ghost use Rattle.std.specs.Prelude.{◌≡◌};
ghost use Rattle.game.specs.Net.{net};
ghost use Rattle.compare.specs.Likeness.{same_net};

// Whether two nets are the same.
pub fn same_net(
    parents: &[u32],
    weights: &[u32],
    other_parents: &[u32],
    other_weights: &[u32],
) -> bool
    ensures { result ≡ same_net (net parents.now weights.now) (net other_parents.now other_weights.now) }
{
    parents == other_parents && weights == other_weights
}
