// Cutting: each vertex, by rising rank, keeps of its children what it can carry.
ghost use Rattle.std.specs.Prelude.{◌≡◌, cond, ◌<◌, eqb, length, replicate};
ghost use Rattle.game.specs.Game.{absent};
ghost use Rattle.game.specs.Net.{net};
ghost use Rattle.cut.specs.Steps.{Divisible, Loaded, Candidates, Trimmed, Listed, Children, Unfiled, Lightened, Cuts};

use crate::classes::{CLASSES, class_of, file_children, floor_of};
use cut::trim;
use net::Net;

// A list of up to so many children is scanned as a whole: to file them by class would take longer.
const SHORT: usize = 32;

// Whether a linked list of children is short.
fn is_short(first: u32, next: &[u32]) -> bool
    requires { Listed first next.now }
{
    let mut child = first;
    let mut count = 0;
    while child != Net::ABSENT && count < SHORT {
        child = next[child as usize];
        count += 1;
    }
    child == Net::ABSENT
}

// Cuts children of x class by class, from the heaviest class down, until what x carries fits, and says what that is.
fn lighten_by_class(
    x: u32,
    weight: u32,
    uncut: u32,
    limit: u32,
    first: u32,
    carried: &[u32],
    link: &mut [u32],
    next: &mut [u32],
    heads: &mut [u32],
) -> u32
    requires loaded { Loaded x weight uncut limit next.old carried.now link.old }
    requires children { Children x first next.old link.old }
    requires unfiled { Unfiled heads.old }
    ensures { Lightened x weight limit carried.now link.old link.new next.old next.new result }
{
    file_children(first, carried, next, heads);
    let mut class = class_of(limit, heads.len() - 1) + 1;
    let mut left = uncut;
    while 0 < class && limit < weight + left {
        class -= 1;
        if heads[class] != Net::ABSENT {
            left = trim(
                x,
                weight,
                left,
                limit,
                floor_of(class),
                heads[class],
                next,
                carried,
                link,
            );
        }
    }
    weight + left
}

// Cuts children of x, the heaviest first, until what x carries fits, and says what that is. The children stand in a linked list by
// falling rank.
fn lighten(
    x: u32,
    weight: u32,
    uncut: u32,
    limit: u32,
    first: u32,
    carried: &[u32],
    link: &mut [u32],
    next: &mut [u32],
) -> u32
    requires loaded { Loaded x weight uncut limit next.old carried.now link.old }
    requires children { Children x first next.old link.old }
    ensures { Lightened x weight limit carried.now link.old link.new next.old next.new result }
{
    if weight + uncut <= limit {
        return weight + uncut;
    }
    if is_short(first, next) {
        let mut head = [Net::ABSENT; 1];
        return lighten_by_class(
            x, weight, uncut, limit, first, carried, link, next, &mut head,
        );
    }
    let mut heads = [Net::ABSENT; CLASSES];
    lighten_by_class(
        x, weight, uncut, limit, first, carried, link, next, &mut heads,
    )
}

// Cuts the forest, going up the ranks. At first link holds ABSENT and carried 0. On the way, for a vertex that is not reached yet,
// link holds its last child, from which next leads to the ones before, and carried what its children carry together. For a vertex
// that was reached, link holds what it hangs on: its parent, or itself if it has none or is cut.
pub fn cut(
    parents: &[u32],
    weights: &[u32],
    limit: u32,
    carried: &mut [u32],
    link: &mut [u32],
    next: &mut [u32],
)
    requires divisible { Divisible parents.now weights.now limit }
    requires carried_value { (carried.old ≡ replicate (length parents.now) 0) × (link.old ≡ replicate (length parents.now) absent) }
    requires next_len { length next.old ≡ length parents.now }
    ensures { Cuts parents.now weights.now limit carried.new link.new }
{
    for (x, &parent) in parents.iter().enumerate() {
        let kept = lighten(
            x as u32, weights[x], carried[x], limit, link[x], carried, link, next,
        );
        carried[x] = kept;
        if parent == Net::ABSENT {
            link[x] = x as u32;
        } else {
            let above = parent as usize;
            next[x] = link[above];
            link[above] = x as u32;
            link[x] = parent;
            carried[above] += kept;
        }
    }
}
