// Whether ties are a net's own: their net is grown by the calls start and add, and compared.
ghost use Rattle.game.specs.Edge.{ties as ties_of};
ghost use Rattle.game.specs.Net.{net};
ghost use Rattle.growth.specs.Work.{work_of};
ghost use Rattle.compare.specs.OwnSteps.{Tellable, Told};

// Grows the net of the ties into the comparison tables, and says whether it is the net. The work tables end as zeros: the list is not read
// again, as a report does, so it need not be filed, and is grown by the quickest way that adding has.
pub fn is_own(
    parents: &[u32],
    weights: &[u32],
    edges: &[u32],
    compared_parents: &mut [u32],
    compared_weights: &mut [u32],
    ends: &mut [u32],
    jump: &mut [u32],
    lower: &mut [u32],
) -> bool
    requires { Tellable (net parents.now weights.now) edges.now (net compared_parents.old compared_weights.old) (work_of ends.old jump.old lower.old) }
    ensures { Told (net parents.now weights.now) (ties_of edges.now) (work_of ends.old jump.old lower.old)
        result (net compared_parents.new compared_weights.new) (work_of ends.new jump.new lower.new) }
{
    // What fits is refused by neither.
    let _ = forest::start(compared_parents, compared_weights);
    let _ = forest::add(compared_parents, compared_weights, edges, ends, jump, lower);
    crate::likeness::same_net(parents, weights, compared_parents, compared_weights)
}
