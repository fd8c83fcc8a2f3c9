// The answer to question 4 that a verdict comes to: that ingredient number i passes, or the refusal that 01 has for its fault.
#![tactic(auto)]

ghost use Rattle.std.specs.Prelude.{◌≡◌};
ghost use Rattle.sheets.specs.Outcome.{table_refusal, matrix_refusal, generator_refusal};
ghost use Rattle.question_4.specs.Passing.{passing_of};

use counting::verdict::{DependenceFault, DifferenceFault, TableFault, TableVerdict};
use sheets::answer::Refusal;

// What a table's verdict says of ingredient number i.
#[tactic(auto, unfolding(question_4::specs::Passing::passing_of, sheets::specs::Outcome::table_refusal))]
pub fn table_passing(i: usize, verdict: TableVerdict) -> Result<(), Refusal>
    ensures { result ≡ passing_of (table_refusal i verdict.finding) }
{
    match verdict.finding {
        Ok(()) => Ok(()),
        Err(
            TableFault::Column {
                column,
                level,
                times,
            },
        ) => Err(Refusal::UnevenLevel {
            ingredient: i,
            column,
            level,
            times,
        }),
        Err(
            TableFault::Pair {
                first,
                second,
                first_level,
                second_level,
                times,
            },
        ) => Err(Refusal::UnevenPair {
            ingredient: i,
            first,
            second,
            first_level,
            second_level,
            times,
        }),
    }
}

// The same of a matrix.
#[tactic(auto, unfolding(question_4::specs::Passing::passing_of, sheets::specs::Outcome::matrix_refusal))]
pub fn matrix_passing(i: usize, finding: Result<(), DifferenceFault>) -> Result<(), Refusal>
    ensures { result ≡ passing_of (matrix_refusal i finding) }
{
    finding.map_err(|fault| Refusal::UnevenDifference {
        ingredient: i,
        first: fault.first,
        second: fault.second,
        difference: fault.difference,
        times: fault.times,
    })
}

// And of a generator.
#[tactic(auto, unfolding(question_4::specs::Passing::passing_of, sheets::specs::Outcome::generator_refusal))]
pub fn generator_passing(i: usize, finding: Result<(), DependenceFault>) -> Result<(), Refusal>
    ensures { result ≡ passing_of (generator_refusal i finding) }
{
    finding.map_err(|fault| Refusal::Dependent {
        ingredient: i,
        first: fault.first,
        second: fault.second,
        coefficients: fault.coefficients,
    })
}
