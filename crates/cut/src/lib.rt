// Children of one vertex cut off, the heaviest first, until what it carries fits.
#![tactic(auto)]

ghost use Rattle.std.specs.Prelude.{◌≡◌, cond, eqb};
ghost use Rattle.cut.specs.Steps.{Loaded, Candidates, Trimmed};

use net::Net;

// What a child carries if it still hangs on x, else 0.
fn weight_on(x: u32, link: u32, carried: u32) -> u32
    ensures { result ≡ cond (eqb link x) carried 0 }
{
    if link == x { carried } else { 0 }
}

// Cuts children of x that carry more than floor, the heaviest first, until what x carries fits or there is none left. A cut child
// hangs on itself. The answer is what the uncut children then carry together.
// No uncut child carries more than the one cut last, so a scan ends at one that carries as much, and begins behind it.
pub fn trim(
    x: u32,
    weight: u32,
    uncut: u32,
    limit: u32,
    floor: u32,
    first: u32,
    next: &[u32],
    carried: &[u32],
    link: &mut [u32],
) -> u32
    requires loaded { Loaded x weight uncut limit next.now carried.now link.old }
    requires candidates { Candidates x floor first next.now carried.now link.old }
    ensures { Trimmed x weight limit floor carried.now link.old link.new result }
{
    let mut uncut = uncut;
    let mut most = limit;
    let mut start = first;
    'cut: loop {
        if weight + uncut <= limit {
            break 'cut;
        }
        let mut heaviest = 0;
        let mut found = floor;
        let mut child = start;
        while child != Net::ABSENT && found < most {
            let at = child as usize;
            let here = weight_on(x, link[at], carried[at]);
            if found < here {
                found = here;
                heaviest = child;
            }
            child = next[at];
        }
        if found < most {
            if start != first {
                start = first;
                continue 'cut;
            }
        }
        if found == floor {
            break 'cut;
        }
        let at = heaviest as usize;
        link[at] = heaviest;
        uncut -= found;
        most = found;
        start = next[at];
    }
    uncut
}
