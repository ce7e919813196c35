// The endings that tell how a desk stands, and what a seat answers that has had no turn.
ghost use Rattle.std.specs.Prelude.{◌≡◌};
ghost use Rattle.calls.specs.Desks.{no_answer, unserved};
ghost use Rattle.calls.specs.Laws.Desks.{is_spent, is_waiting};

use calls::{Ending, RunAnswer};

pub fn is_spent(ending: Ending) -> bool
    ensures { result ≡ is_spent ending }
{
    matches!(ending, Ending::Spent)
}

pub fn is_waiting(ending: Ending) -> bool
    ensures { result ≡ is_waiting ending }
{
    matches!(ending, Ending::Waiting)
}

// A desk with no turn.
pub fn unserved() -> RunAnswer
    ensures { result ≡ unserved }
{
    RunAnswer {
        refusal: 0,
        ending: Ending::Waiting,
        judged: 0,
        share: 1,
        gap: 0,
        cost: 0,
        over: 0,
    }
}

// A seat without a desk.
pub fn no_answer() -> RunAnswer
    ensures { result ≡ no_answer }
{
    assignment::refused_run(0)
}
