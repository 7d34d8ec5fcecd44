// Vertices that wait for the end of their count, and the pass over the list that tells it.
ghost use Rattle.std.specs.Prelude.{◌≡◌, ◌-◌, ◌≤◌, length};
ghost use Rattle.game.specs.Table.{one_if};
ghost use Rattle.game.specs.Edge.{edges as edges_of};
ghost use Rattle.refusal.specs.Limits.{max_vertices};
ghost use Rattle.block_count.specs.WaitingSteps.{next_pending, waiting, waiting_in, Passable, Passes, Sweepable, Swept};

// What a vertex's count waits for is held in one number: how many edges to lower neighbours have to come, and this one on top while no
// edge of its own block has come. 0 is nothing.
pub const UNMET: u32 = 2147483648;

// A number, or one less if the flag is set and it is not 0.
fn one_less(number: u32, flag: bool) -> u32
    ensures { result ≡ number - one_if flag }
{
    number.saturating_sub(u32::from(flag))
}

// What is waited for when an edge has come, which leads down or not, and is of the vertex's own block or not.
fn next(pending: u32, down: bool, own: bool) -> u32
    ensures { result ≡ next_pending down own pending }
{
    if pending < UNMET {
        return one_less(pending, down);
    }
    let needed = one_less(pending - UNMET, down);
    if own {
        return needed;
    }
    needed + UNMET
}

// 1 if something is waited for, else 0.
fn waits(pending: u32) -> u32
    ensures { result ≡ waiting pending }
{
    u32::from(pending != 0)
}

// Takes an edge at one of its ends, x, if that waits; `low` is the edge's lower end, whose block is the edge's. Answers 1 if x waits no
// longer, else 0.
fn pass(x: u32, low: u32, block: &[u32], pending: &mut [u32], edges_taken: &mut [u32]) -> u32
    requires { Passable x low block.now pending.old edges_taken.old }
    ensures { Passes x low block.now pending.old edges_taken.old pending.new edges_taken.new result }
{
    let at = x as usize;
    let before = pending[at];
    if before == 0 {
        return 0;
    }
    let after = next(before, x != low, block[at] == block[low as usize]);
    edges_taken[at] += 1;
    pending[at] = after;
    1 - waits(after)
}

// How many vertices wait.
fn count_waiting(pending: &[u32]) -> u32
    requires { length pending.now ≤ max_vertices }
    ensures { result ≡ waiting_in pending.now }
{
    let mut count = 0;
    for &number in pending {
        count += waits(number);
    }
    count
}

// Goes over the list until no vertex waits, and takes each edge at the ends that do.
pub fn settle(edges: &[u32], block: &[u32], pending: &mut [u32], edges_taken: &mut [u32])
    requires { Sweepable (edges_of edges.now) block.now pending.old edges_taken.old }
    ensures { Swept (edges_of edges.now) block.now pending.old edges_taken.old edges_taken.new }
{
    let mut waiting = count_waiting(pending);
    for tie in edge::ties(edges) {
        if waiting == 0 {
            return;
        }
        let low = tie.lower();
        waiting -= pass(tie.a, low, block, pending, edges_taken);
        waiting -= pass(tie.b, low, block, pending, edges_taken);
    }
}
