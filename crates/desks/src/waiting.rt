// What the answers of the seats tell of the turns so far, and how far the next round goes.
ghost use Rattle.std.specs.Prelude.{◌≡◌, ◌+◌, ◌≤◌, cond};
ghost use Rattle.theory.specs.Finite.{count};
ghost use Rattle.calls.specs.Laws.Desks.{is_waiting};
ghost use Rattle.desks.specs.Rounds.{turns_had, waits_at, turns_made, waiting_count, waiting_sum, round_turns};

use crate::Round;
use crate::answers::is_waiting;
use calls::RunAnswer;

// How many desks wait, and the turns that they share: those that they have had, and those that are left.
#[derive(Clone, Copy)]
pub struct Shared {
    pub waiting: u32,
    pub turns: u32,
}

// The turns made.
pub fn turns_made(answers: &[RunAnswer; 8]) -> u32
    requires { turns_made answers.now ≤ 8192 }
    ensures { result ≡ turns_made answers.now }
{
    let mut made = 0;
    for seat in 0..8 {
        made += answers[seat].judged;
    }
    made
}

// With so many turns left.
pub fn share_out(answers: &[RunAnswer; 8], left: u32) -> Shared
    requires { left + turns_made answers.now ≤ 8192 }
    ensures waiting { result.waiting ≡ waiting_count answers.now }
    ensures turns { result.turns ≡ left + waiting_sum answers.now (turns_had answers.now) }
{
    let mut waiting = 0;
    let mut turns = left;
    for seat in 0..8 {
        let answer = answers[seat];
        waiting += if_waiting(answer, 1);
        turns += if_waiting(answer, answer.judged);
    }
    Shared { waiting, turns }
}

// The turns are shared evenly, and the first desks have those that are over.
pub fn next_round(answers: &[RunAnswer; 8], shared: Shared) -> Round
    requires some { 1 ≤ shared.waiting }
    requires waiting { shared.waiting ≡ waiting_count answers.now }
    ensures before { result.before ≤ 8 }
    ensures whole { result.whole ≤ shared.turns }
    ensures turns { waiting_sum answers.now (round_turns result) ≡ shared.turns }
{
    let whole = shared.turns / shared.waiting;
    let before = seat_after(answers, shared.turns % shared.waiting);
    Round { whole, before }
}

// The first seat before which so many desks wait.
fn seat_after(answers: &[RunAnswer; 8], desks: u32) -> usize
    requires { desks ≤ waiting_count answers.now }
    ensures few { result ≤ 8 }
    ensures counted { count result (waits_at answers.now) ≡ desks }
{
    let mut rest = desks;
    for seat in 0..8 {
        if rest == 0 {
            return seat;
        }
        rest -= if_waiting(answers[seat], 1);
    }
    8
}

// So many, if the desk waits, and else none.
fn if_waiting(answer: RunAnswer, turns: u32) -> u32
    ensures { result ≡ cond (is_waiting answer.ending) turns 0 }
{
    let ending = answer.ending;
    if is_waiting(ending) { turns } else { 0 }
}
