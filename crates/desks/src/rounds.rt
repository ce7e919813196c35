// Rounds of turns. In one each desk has its turns one after the other: nobody sees the tables in between, and so a study is decoded once in a round.
ghost use Rattle.std.specs.Prelude.{◌≡◌, ℕ, ◌≤◌, ◌<◌, length};
ghost use Rattle.calls.specs.Desks.{desk_at};
ghost use Rattle.desks.specs.Seats.{desks_of, references};
ghost use Rattle.desks.specs.Rounds.{answer_at, round_turns, serves, every, behind, Going, Stands};

use crate::answers::{is_waiting, unserved};
use crate::seats::serve_seat;
use crate::{Desk, Round};
use calls::RunAnswer;

// The first round: puts their questions to the first seats' desks, and serves those that are not refused.
pub fn open_desks(
    seat_0: &mut Desk<'_>,
    seat_1: &mut Desk<'_>,
    seat_2: &mut Desk<'_>,
    seat_3: &mut Desk<'_>,
    seat_4: &mut Desk<'_>,
    seat_5: &mut Desk<'_>,
    seat_6: &mut Desk<'_>,
    seat_7: &mut Desk<'_>,
    answers: &mut [RunAnswer; 8],
    count: usize,
    round: Round,
)
    requires count_most { count ≤ 8 }
    requires round_fits { round.whole ≤ 8192 }
    ensures same_references { references seat_0.new seat_1.new seat_2.new seat_3.new seat_4.new seat_5.new seat_6.new seat_7.new ≡ references seat_0.old seat_1.old seat_2.old seat_3.old seat_4.old seat_5.old seat_6.old seat_7.old }
    ensures answers_len { length answers.new ≡ 8 }
    ensures opened { Going every round count (desks_of seat_0.old seat_1.old seat_2.old seat_3.old seat_4.old seat_5.old seat_6.old seat_7.old) (desks_of seat_0.new seat_1.new seat_2.new seat_3.new seat_4.new seat_5.new seat_6.new seat_7.new) answers.old answers.new }
{
    for seat in 0..count {
        answers[seat] = serve_seat(
            seat_0,
            seat_1,
            seat_2,
            seat_3,
            seat_4,
            seat_5,
            seat_6,
            seat_7,
            seat,
            unserved(),
            turns_at(round, seat),
        );
    }
}

// A later round: serves each desk that still waits.
pub fn serve_round(
    seat_0: &mut Desk<'_>,
    seat_1: &mut Desk<'_>,
    seat_2: &mut Desk<'_>,
    seat_3: &mut Desk<'_>,
    seat_4: &mut Desk<'_>,
    seat_5: &mut Desk<'_>,
    seat_6: &mut Desk<'_>,
    seat_7: &mut Desk<'_>,
    answers: &mut [RunAnswer; 8],
    round: Round,
)
    requires round_fits { round.whole ≤ 8192 }
    requires stands { (seat : ℕ) → seat < 8 → Stands (desk_at (desks_of seat_0.old seat_1.old seat_2.old seat_3.old seat_4.old seat_5.old seat_6.old seat_7.old) seat) (answer_at answers.old seat) }
    ensures same_references { references seat_0.new seat_1.new seat_2.new seat_3.new seat_4.new seat_5.new seat_6.new seat_7.new ≡ references seat_0.old seat_1.old seat_2.old seat_3.old seat_4.old seat_5.old seat_6.old seat_7.old }
    ensures answers_len { length answers.new ≡ 8 }
    ensures gone { Going (behind answers.old round) round 8 (desks_of seat_0.old seat_1.old seat_2.old seat_3.old seat_4.old seat_5.old seat_6.old seat_7.old) (desks_of seat_0.new seat_1.new seat_2.new seat_3.new seat_4.new seat_5.new seat_6.new seat_7.new) answers.old answers.new }
{
    for seat in 0..8 {
        let answer = answers[seat];
        let until = turns_at(round, seat);
        if serves(answer, until) {
            answers[seat] = serve_seat(
                seat_0, seat_1, seat_2, seat_3, seat_4, seat_5, seat_6, seat_7, seat, answer, until,
            );
        }
    }
}

// How many turns a seat has had after a round, unless its desk ended.
fn turns_at(round: Round, seat: usize) -> u32
    requires { round.whole ≤ 8192 }
    ensures { result ≡ round_turns round seat }
{
    if seat < round.before {
        round.whole + 1
    } else {
        round.whole
    }
}

fn serves(answer: RunAnswer, until: u32) -> bool
    ensures { result ≡ serves answer until }
{
    let ending = answer.ending;
    is_waiting(ending) && answer.judged < until
}
