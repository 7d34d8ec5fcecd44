// The lines of a run, written into a table of bytes from a place `at` on, or from its front. The answer of each function is the place
// after what it wrote.
ghost use Rattle.std.specs.Prelude.{◌+◌, ◌*◌, ◌≤◌, length};
ghost use Rattle.decimal.specs.Put.{PutText};
ghost use Rattle.refusal.specs.Numbers.{number_of, verdict};
ghost use Rattle.lines.specs.FieldSteps.{line_room};
ghost use Rattle.lines.specs.Lines.{refused_text, rank_text, lines_below, share_text, totals_text};
ghost use Rattle.lines.specs.LineSteps.{Columns, answer_text, share_room, totals_room};

use crate::fields::{put_entry, put_figure, put_line};
use cost::Totals;
use decimal::put_text;
use refusal::Refusal;
use share::Share;

// The lines of all ranks.
fn put_lines(
    order: &[u32],
    parents: &[u32],
    weights: &[u32],
    reach: &[u32],
    top: &[u32],
    block: &[u32],
    block_count: &[u32],
    text: &mut [u8],
) -> usize
    requires columns { Columns order.now parents.now weights.now reach.now top.now block.now block_count.now }
    requires order_in_bounds { line_room * length order.now ≤ length text.old }
    ensures { PutText text.old 0
        (lines_below (rank_text order.now parents.now weights.now reach.now top.now
        block.now block_count.now) (length order.now))
        text.new result
        × (result ≤ line_room * length order.now) }
{
    let mut end = 0;
    for (x, &vertex) in order.iter().enumerate() {
        end = put_line(
            text,
            end,
            x as u32,
            vertex,
            parents[x],
            weights[x],
            reach[x],
            top[x],
            block[x],
            block_count[x],
        );
    }
    end
}

// The even share, which ends the last line.
fn put_share(text: &mut [u8], at: usize, share: Share) -> usize
    requires { at + share_room ≤ length text.old }
    ensures { PutText text.old at (share_text share) text.new result }
{
    let end = put_text(text, at, b"share ");
    let end = put_entry(text, end, share.quotient(), b' ');
    put_entry(text, end, share.remainder(), b'\n')
}

// The last line: the totals of the report.
fn put_totals(text: &mut [u8], at: usize, totals: Totals) -> usize
    requires { at + totals_room ≤ length text.old }
    ensures { PutText text.old at (totals_text totals) text.new result }
{
    let end = put_text(text, at, b"bound ");
    let end = put_figure(text, end, totals.bound, b' ');
    let end = put_text(text, end, b"volume ");
    let end = put_figure(text, end, totals.volume, b' ');
    put_share(text, end, totals.share)
}

// What a refused run prints.
pub fn put_refused(text: &mut [u8], refusal: Refusal) -> usize
    requires { totals_room ≤ length text.old }
    ensures { PutText text.old 0 (refused_text (number_of refusal)) text.new result }
{
    let end = put_text(text, 0, b"refused ");
    put_entry(text, end, refusal.number(), b'\n')
}

// What a run prints of a report's answer and of the tables that it left.
pub fn put_answer(
    answer: Result<Totals, Refusal>,
    order: &[u32],
    parents: &[u32],
    weights: &[u32],
    reach: &[u32],
    top: &[u32],
    block: &[u32],
    block_count: &[u32],
    text: &mut [u8],
) -> usize
    requires columns { Columns order.now parents.now weights.now reach.now top.now block.now block_count.now }
    requires totals_room_in_bounds { line_room * length order.now + totals_room ≤ length text.old }
    ensures { PutText text.old 0
        (answer_text (verdict answer)
        (lines_below (rank_text order.now parents.now weights.now reach.now top.now
        block.now block_count.now) (length order.now)))
        text.new result }
{
    match answer {
        Ok(totals) => {
            let end = put_lines(
                order,
                parents,
                weights,
                reach,
                top,
                block,
                block_count,
                text,
            );
            put_totals(text, end, totals)
        }
        Err(refusal) => put_refused(text, refusal),
    }
}
