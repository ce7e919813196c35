// The answers of refused calls: the number, and 0 in every other field.
ghost use Rattle.std.specs.Prelude.{◌≡◌};
ghost use Rattle.calls.specs.Laws.Calls.{refused_audit, refused_run};

use calls::{AuditAnswer, Ending, RunAnswer};

pub fn refused_audit(number: u8) -> AuditAnswer
    ensures { result ≡ refused_audit number }
{
    AuditAnswer {
        refusal: number,
        gap: 0,
        cost: 0,
        over: 0,
    }
}

pub fn refused_run(number: u8) -> RunAnswer
    ensures { result ≡ refused_run number }
{
    RunAnswer {
        refusal: number,
        ending: Ending::Refused,
        judged: 0,
        share: 0,
        gap: 0,
        cost: 0,
        over: 0,
    }
}
