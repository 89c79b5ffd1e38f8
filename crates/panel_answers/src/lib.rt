// The numbers by which C gets the answers of the calls.
#![tactic(auto)]

ghost use Rattle.std.specs.Prelude.{◌+◌, ◌≡◌};
ghost use Rattle.rules.specs.Refusal.{refusal_number};
ghost use Rattle.panel_answers.specs.Answers.{outcome_number, compile_number, check_number, FewRecords, FewCells, Answered};

use network::Outside;
use rules::Refusal;

// What C adds to a refusal's number: evaluating, so that no refusal is a grade, and the other calls.
const NO_GRADE: u32 = 256;

const REFUSED: u32 = 65536;

// A grade as itself, a refusal as 256 and its number.
pub fn of_evaluation(evaluation: Result<u8, Refusal>) -> u32
    ensures { Answered evaluation result }
{
    match evaluation {
        Ok(grade) => u32::from(grade),
        Err(refusal) => NO_GRADE + refusal.number(),
    }
}

// A refusal of any other call.
pub fn of_refusal(refusal: Refusal) -> u32
    ensures { result ≡ 65536 + refusal_number refusal }
{
    REFUSED + refusal.number()
}

pub fn of_outcome(outcome: Result<(), Refusal>) -> u32
    ensures { result ≡ outcome_number outcome }
{
    outcome.map_or_else(of_refusal, |()| 0)
}

pub fn of_compile(answer: Result<usize, Refusal>) -> u32
    requires { FewRecords answer }
    ensures { result ≡ compile_number answer }
{
    answer.map_or_else(of_refusal, |count| count as u32)
}

pub fn of_check(answer: Result<Option<Outside>, Refusal>) -> u32
    requires { FewCells answer }
    ensures { result ≡ check_number answer }
{
    match answer {
        Ok(None) => 0,
        Ok(Some(Outside { cell, grade })) => 1 + 16 * (cell as u32) + u32::from(grade),
        Err(refusal) => of_refusal(refusal),
    }
}
