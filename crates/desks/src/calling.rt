// The call: rounds of turns until every desk has ended, or the allowance is used up.
ghost use Rattle.std.specs.Prelude.{◌≡◌, replicate};
ghost use Rattle.study.specs.Questions.{within};
ghost use Rattle.calls.specs.Desks.{no_answer, desks_number, desks_answer};
ghost use Rattle.calls.specs.Laws.Desks.{refused_desks};
ghost use Rattle.desks.specs.Seats.{desks_of};
ghost use Rattle.desks.specs.Standing.{desks_left};

use crate::answers::no_answer;
use crate::rounds::{open_desks, serve_round};
use crate::waiting::{next_round, share_out, turns_made};
use crate::{Desk, Round};
use calls::{DesksAnswer, RunAnswer};

// Several desks: turns go round the unfinished ones in seat order, one judged table each, until all have ended or the allowance is used up. The
// first seats have the desks; what is lent at the others stays as it is.
pub fn desks(
    seat_0: &mut Desk<'_>,
    seat_1: &mut Desk<'_>,
    seat_2: &mut Desk<'_>,
    seat_3: &mut Desk<'_>,
    seat_4: &mut Desk<'_>,
    seat_5: &mut Desk<'_>,
    seat_6: &mut Desk<'_>,
    seat_7: &mut Desk<'_>,
    count: u32,
    allowance: u32,
) -> DesksAnswer
    ensures same_reference_0 { seat_0.new.table.ghost_name ≡ seat_0.old.table.ghost_name }
    ensures same_reference_1 { seat_1.new.table.ghost_name ≡ seat_1.old.table.ghost_name }
    ensures same_reference_2 { seat_2.new.table.ghost_name ≡ seat_2.old.table.ghost_name }
    ensures same_reference_3 { seat_3.new.table.ghost_name ≡ seat_3.old.table.ghost_name }
    ensures same_reference_4 { seat_4.new.table.ghost_name ≡ seat_4.old.table.ghost_name }
    ensures same_reference_5 { seat_5.new.table.ghost_name ≡ seat_5.old.table.ghost_name }
    ensures same_reference_6 { seat_6.new.table.ghost_name ≡ seat_6.old.table.ghost_name }
    ensures same_reference_7 { seat_7.new.table.ghost_name ≡ seat_7.old.table.ghost_name }
    ensures value { result ≡ desks_answer (desks_of seat_0.old seat_1.old seat_2.old seat_3.old seat_4.old seat_5.old seat_6.old seat_7.old) count allowance }
    ensures desks_after { desks_of seat_0.new seat_1.new seat_2.new seat_3.new seat_4.new seat_5.new seat_6.new seat_7.new ≡ desks_left (desks_of seat_0.old seat_1.old seat_2.old seat_3.old seat_4.old seat_5.old seat_6.old seat_7.old) count allowance }
{
    let refusal = desks_refusal(count, allowance);
    if refusal != 0 {
        return refused_desks(refusal);
    }
    let mut answers = no_answers();
    let first = Round {
        whole: allowance / count,
        before: (allowance % count) as usize,
    };
    open_desks(
        seat_0,
        seat_1,
        seat_2,
        seat_3,
        seat_4,
        seat_5,
        seat_6,
        seat_7,
        &mut answers,
        count as usize,
        first,
    );
    let mut left = allowance - turns_made(&answers);
    while left != 0 {
        let shared = share_out(&answers, left);
        if shared.waiting == 0 {
            break;
        }
        let round = next_round(&answers, shared);
        serve_round(
            seat_0,
            seat_1,
            seat_2,
            seat_3,
            seat_4,
            seat_5,
            seat_6,
            seat_7,
            &mut answers,
            round,
        );
        left = allowance - turns_made(&answers);
    }
    DesksAnswer {
        refusal: 0,
        turns: allowance - left,
        seats: answers,
    }
}

// 24. Are the desks 1 to 8? 25. Is the allowance 1 to 8,192?
fn desks_refusal(count: u32, allowance: u32) -> u8
    ensures { result ≡ desks_number count allowance }
{
    if !within(count, 8) {
        return 24;
    }
    if !within(allowance, 8192) {
        return 25;
    }
    0
}

fn within(number: u32, most: u32) -> bool
    ensures { result ≡ within 1 most number }
{
    1 <= number && number <= most
}

fn refused_desks(number: u8) -> DesksAnswer
    ensures { result ≡ refused_desks number }
{
    DesksAnswer {
        refusal: number,
        turns: 0,
        seats: no_answers(),
    }
}

fn no_answers() -> [RunAnswer; 8]
    ensures { result ≡ replicate 8 no_answer }
{
    [no_answer(); 8]
}
