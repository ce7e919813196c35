// The turns of one desk. Turns that a desk has one after the other cost no more than those of a run.
ghost use Rattle.std.specs.Prelude.{◌≡◌, true};
ghost use Rattle.calls.specs.Questions.{budget_fits};
ghost use Rattle.calls.specs.Desks.{desk_answer, desk_table};
ghost use Rattle.desks.specs.Seats.{desk_of, queued, with_table, Open, cut_off, course_of};

use crate::Desk;
use crate::answers::{is_spent, unserved};
use assignment::{Course, refused_run, run_from};
use calls::{Ending, RunAnswer};
use refusals::budget_fits;

// Serves a desk until it has had so many turns or has ended, and answers what it then does. The desk has had no turn yet, or waits after fewer.
pub fn serve_desk(desk: &mut Desk<'_>, answer: RunAnswer, until: u32) -> RunAnswer
    requires { Open (queued desk.old) answer until }
    ensures same_reference { desk.new.table.ghost_name ≡ desk.old.table.ghost_name }
    ensures value { result ≡ desk_answer (queued desk.old) until }
    ensures desk_after { queued desk.new ≡ with_table (queued desk.old) (desk_table (queued desk.old) until) }
{
    serve(
        desk.file,
        desk.table,
        desk.budget,
        desk.excess,
        answer,
        until,
    )
}

fn serve(
    file: &[u8],
    table: &mut [u32],
    budget: u32,
    excess: u16,
    answer: RunAnswer,
    until: u32,
) -> RunAnswer
    requires { Open (desk_of file.now table.old budget excess) answer until }
    ensures value { result ≡ desk_answer (desk_of file.now table.old budget excess) until }
    ensures table_after { table.new ≡ desk_table (desk_of file.now table.old budget excess) until }
{
    if !budget_fits(budget) {
        return assignment::run(file, table, budget, excess);
    }
    if until == 0 {
        return begin(file, table, budget, excess);
    }
    let course = course_of(answer, budget.min(until), excess);
    cut_off(run_from(file, table, course), budget)
}

// A desk that has no turn is started, if its run would not be refused.
fn begin(file: &[u8], table: &mut [u32], budget: u32, excess: u16) -> RunAnswer
    requires { budget_fits budget ≡ true }
    ensures value { result ≡ desk_answer (desk_of file.now table.old budget excess) 0 }
    ensures table_after { table.new ≡ desk_table (desk_of file.now table.old budget excess) 0 }
{
    let refusal = assignment::start(file, table);
    if refusal != 0 {
        return refused_run(refusal);
    }
    unserved()
}

// The course of a run that goes on where a desk stands: from a start, or from the table that it judged last.
fn course_of(answer: RunAnswer, budget: u32, excess: u16) -> Course
    ensures { result ≡ course_of answer budget excess }
{
    if answer.judged == 0 {
        return Course {
            budget,
            excess,
            moves: 0,
            share: 1,
            resumed: false,
        };
    }
    Course {
        budget,
        excess,
        moves: answer.judged - 1,
        share: answer.share,
        resumed: true,
    }
}

// A run that is spent before the desk's own budget waits.
fn cut_off(ended: RunAnswer, budget: u32) -> RunAnswer
    ensures { result ≡ cut_off ended budget }
{
    let ending = ended.ending;
    if ended.judged < budget && is_spent(ending) {
        return RunAnswer {
            refusal: ended.refusal,
            ending: Ending::Waiting,
            judged: ended.judged,
            share: ended.share,
            gap: ended.gap,
            cost: ended.cost,
            over: ended.over,
        };
    }
    ended
}
