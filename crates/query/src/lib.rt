// The call query: the run of a vertex, looked up in an index of neighbours, as a part of the table that the caller lends. One pass tests
// that the starts rise; the run itself is not read.
#![tactic(auto)]

ghost use Rattle.std.specs.Prelude.{◌≡◌, ◌<◌, length};
ghost use Rattle.refusal.specs.Numbers.{code};
ghost use Rattle.index.specs.Index.{index};
ghost use Rattle.query.specs.Query.{rises, query_refusal, query_place, place, answered, query_outcome};

use refusal::Refusal;

// Where the run of a vertex stands in the table of neighbours.
#[derive(Clone, Copy, Debug, PartialEq, Eq)]
pub struct Run {
    pub first: u32,
    pub count: u32,
}

// Whether the starts go from 0 up to the end without falling. A scan to the last is quicker than one that stops.
fn starts_rise(starts: &[u32], end: usize) -> bool
    requires { 0 < length starts.now }
    ensures { result ≡ rises end starts.now }
{
    let last = starts.len() - 1;
    let mut falls = false;
    for i in 0..last {
        falls |= starts[i + 1] < starts[i];
    }
    !falls & (starts[0] == 0) & (starts[last] as usize == end)
}

// Whether a query is refused, and for what.
#[tactic(auto, unfolding(crate::specs::Query::query_refusal, index::specs::Index::vertices, refusal::specs::Refusal::first, refusal::specs::Refusal::given))]
fn query_refusal(starts: &[u32], neighbours: &[u32], rank: u32) -> Result<(), Refusal>
    ensures { code result ≡ query_refusal (index starts.now neighbours.now) rank }
{
    if starts.len() == 0 {
        return Err(Refusal::WrongLength);
    }
    let n = starts.len() - 1;
    if refusal::bad_count(n) {
        return Err(Refusal::BadCount);
    }
    if !starts_rise(starts, neighbours.len()) {
        return Err(Refusal::Damaged);
    }
    if n <= rank as usize {
        return Err(Refusal::BadVertex);
    }
    Ok(())
}

// Where the run of a rank stands. A refused query has none.
pub fn locate(starts: &[u32], neighbours: &[u32], rank: u32) -> Result<Run, Refusal>
    ensures { place result ≡ query_place (index starts.now neighbours.now) rank }
{
    query_refusal(starts, neighbours, rank)?;
    let at = rank as usize;
    let first = starts[at];
    Ok(Run {
        first,
        count: starts[at + 1] - first,
    })
}

// Hands back the run of a rank as a part of the table of neighbours, and in the cell 0. Refused, the part is empty and the cell has the
// number.
pub fn query<'a>(starts: &[u32], neighbours: &'a [u32], rank: u32, cell: &mut u32) -> &'a [u32]
    ensures { answered result.now cell.new ≡ query_outcome (index starts.now neighbours.now) rank }
{
    match locate(starts, neighbours, rank) {
        Ok(run) => {
            *cell = 0;
            let first = run.first as usize;
            let end = first + run.count as usize;
            &neighbours[first..end]
        }
        Err(refusal) => {
            *cell = refusal.number();
            &neighbours[..0]
        }
    }
}
