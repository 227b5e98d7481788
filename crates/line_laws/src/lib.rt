//! Laws that the answer to a job of a router doesn't depend on the numbers of lines. Each is the contract of a function with
//! an empty body.
#![tactic(auto)]

ghost use Rattle.line_laws.specs.Statements.{AnswersAreAlike, PlainIsAnswered, PlainJobIsAlike};

/// The answer to a job without numbers of lines is that to the job, without numbers of lines.
pub fn plain_job_is_answered()
    ensures { PlainIsAnswered }
{}

/// Jobs that are the same but for numbers of lines have answers that are.
pub fn answers_are_alike()
    ensures answers { AnswersAreAlike }
    ensures some { PlainJobIsAlike }
{}
