//! What an answer claims of other plans.
ghost use Rattle.std.specs.Prelude.{◌≡◌};
ghost use Rattle.fp_certificate_rules.specs.Accepted.{claim_of as claim_of_answer};

use fp_certificate_lines::Answer;

// What an answer claims that no plan costs less than, and 0 where it claims nothing of the kind.
pub(crate) fn claim_of(answer: Answer) -> u128
    ensures { result ≡ claim_of_answer answer }
{
    match answer {
        Answer::Optimal { cost } => cost,
        Answer::Unfinished { bound, .. } => bound,
        Answer::Direct { .. } | Answer::Infeasible { .. } => 0,
    }
}
