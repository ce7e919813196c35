// The answers in words.
use calls::{AuditAnswer, Ending, Outcome, PassAnswer, RunAnswer, TakeBackAnswer};
use std::fmt::Display;
use std::io;

pub fn start(rt: &impl Print, refusal: u8) -> io::Result<()> {
    print!(rt; ": start, refusal {refusal}")
}

pub fn audit(rt: &impl Print, share: u32, answer: AuditAnswer) -> io::Result<()> {
    print!(rt; ": audit at share {share}, refusal {}", answer.refusal)?;
    print!(rt;
        ", gap {}, cost {}, over {}",
        answer.gap, answer.cost, answer.over
    )
}

pub fn pass(rt: &impl Print, share: u32, answer: PassAnswer) -> io::Result<()> {
    print!(rt; ": pass at share {share}, refusal {}", answer.refusal)?;
    print!(rt; ", {}, gap {}", outcome_word(answer.outcome), answer.gap)?;
    print!(rt;
        ", cost {}, share {}, over {}",
        answer.cost, answer.share, answer.over
    )
}

pub fn take_back(rt: &impl Print, share: u32, answer: TakeBackAnswer) -> io::Result<()> {
    print!(rt;
        ": taking back at share {share}, refusal {}",
        answer.refusal
    )?;
    print!(rt; ", share {}", answer.share)
}

pub fn run(rt: &impl Print, budget: u32, excess: u16, answer: RunAnswer) -> io::Result<()> {
    print!(rt; ": run with budget {budget} and excess {excess}")?;
    print!(rt;
        ", refusal {}, {}",
        answer.refusal,
        ending_word(answer.ending)
    )?;
    print!(rt; ", judged {}, share {}", answer.judged, answer.share)?;
    print!(rt;
        ", gap {}, cost {}, over {}",
        answer.gap, answer.cost, answer.over
    )
}

fn outcome_word(outcome: Outcome) -> &'static str {
    match outcome {
        Outcome::Refused => "refused",
        Outcome::Moved => "moved",
        Outcome::Finest => "finest",
    }
}

fn ending_word(ending: Ending) -> &'static str {
    match ending {
        Ending::Refused => "refused",
        Ending::Reached => "reached",
        Ending::Finest => "finest",
        Ending::Spent => "spent",
        Ending::Waiting => "waiting",
    }
}

// The numbers of the note.
pub fn noted(rt: &impl Print, note: &[u16]) -> io::Result<()> {
    print!(rt; ", note")?;
    numbers(rt, note)
}

// The numbers of the table, and the end of the line.
pub fn left(rt: &impl Print, table: &[u32]) -> io::Result<()> {
    print!(rt; ", table")?;
    numbers(rt, table)?;
    println!(rt; "")
}

fn numbers<T: Display>(rt: &impl Print, numbers: &[T]) -> io::Result<()> {
    for number in numbers {
        print!(rt; " {number}")?;
    }
    Ok(())
}
