// The answers of refused calls: the number, and 0 in every other field.
ghost use Rattle.std.specs.Prelude.{◌≡◌};
ghost use Rattle.calls.specs.Laws.Calls.{refused_pass, refused_take_back};

use calls::{Outcome, PassAnswer, TakeBackAnswer};

pub fn refused_pass(number: u8) -> PassAnswer
    ensures { result ≡ refused_pass number }
{
    PassAnswer {
        refusal: number,
        outcome: Outcome::Refused,
        gap: 0,
        cost: 0,
        share: 0,
        over: 0,
    }
}

pub fn refused_take_back(number: u8) -> TakeBackAnswer
    ensures { result ≡ refused_take_back number }
{
    TakeBackAnswer {
        refusal: number,
        share: 0,
    }
}
