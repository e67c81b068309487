//! What is wrong with a test.

ghost use Rattle.std.specs.Prelude.{◌≡◌, IfOk, Some};
ghost use Rattle.esi_expr.specs.Shown.{shown_stop};
ghost use Rattle.template_check.specs.Stops as stops;
ghost use Rattle.template_check.specs.Troubles as spec;
ghost use Rattle.template_check.specs.Words.{words_of};

use edge_types::NoMemory;
use esi_expr::{Halt, Stop, Wanted, read};
use std::alloc::Global;
use std::fmt;

/// What is wrong with a test where its reading stops.
#[derive(Clone, Copy, Debug, Drop, PartialEq, Eq)]
pub enum TestProblem {
    /// An operand is missing.
    NoOperand,
    /// The `$` doesn't begin a reference.
    NoReference,
    /// The quote is never closed.
    OpenQuote,
    /// A text is in double quotes.
    DoubleQuote,
    /// Too many digits, or none after the minus.
    NoNumber,
    /// More `(` and `!` around an operand than are allowed.
    TooDeep,
    /// A second `&` or bar.
    Doubled,
    /// `=` where `==` is meant.
    OneEquals,
    /// The `)` has no open `(`.
    NoOpening,
    /// A `(` has no `)`.
    NoClosing,
    /// An operator between two operands is missing.
    NoOperator,
}

/// A problem and where it is.
#[derive(Clone, Copy, Debug, Drop, PartialEq, Eq)]
pub struct TestTrouble {
    pub problem: TestProblem,
    /// How far the test was read: in bytes from its start.
    pub place: usize,
}

impl fmt::Display for TestProblem {
    ghost output = { λ problem. Some (words_of problem) };

    fn fmt<W: fmt::Write>(&self, f: &mut fmt::Formatter<W>) -> fmt::Result {
        f.write_str(match self {
            TestProblem::NoOperand => {
                "a reference, a number or a text in single quotes is wanted here, such as 'text'"
            }
            TestProblem::NoReference => {
                "this is no reference, such as $(HTTP_HOST) or $(HTTP_COOKIE{name})"
            }
            TestProblem::OpenQuote => "the quote has no second one",
            TestProblem::DoubleQuote => "a text stands in single quotes",
            TestProblem::NoNumber => "a number has 1 to 18 digits",
            TestProblem::TooDeep => "at most 32 `(` and `!` may stand round an operand",
            TestProblem::Doubled => "`&` means and, `|` means or, and each stands once",
            TestProblem::OneEquals => "`==` compares, and not `=`",
            TestProblem::NoOpening => "no `(` is open for this `)`",
            TestProblem::NoClosing => "a `)` is missing",
            TestProblem::NoOperator => {
                "an operator is wanted here: ==, !=, <, >, <=, >=, & or |"
            }
        })
    }
}

// What is wrong if an operand is wanted and this byte comes.
fn operand_problem(first: u8) -> TestProblem
    ensures { result ≡ spec.operand_problem first }
{
    match first {
        b'$' => TestProblem::NoReference,
        b'\'' => TestProblem::OpenQuote,
        b'"' => TestProblem::DoubleQuote,
        b'-' | b'0'..=b'9' => TestProblem::NoNumber,
        b'(' | b'!' => TestProblem::TooDeep,
        b'&' | b'|' => TestProblem::Doubled,
        _ => TestProblem::NoOperand,
    }
}

// What is wrong if an operator or the end of a group is wanted and this byte comes.
fn operator_problem(first: u8) -> TestProblem
    ensures { result ≡ spec.operator_problem first }
{
    match first {
        b'=' => TestProblem::OneEquals,
        b')' => TestProblem::NoOpening,
        _ => TestProblem::NoOperator,
    }
}

// What is wrong if this is wanted and this is the rest of the text.
fn problem_of(wanted: Wanted, rest: &[u8]) -> TestProblem
    ensures { result ≡ spec.problem_of wanted rest.now }
{
    match (wanted, rest.first()) {
        (Wanted::Operand, Some(first)) => operand_problem(*first),
        (Wanted::Operand, None) => TestProblem::NoOperand,
        (_, Some(first)) => operator_problem(*first),
        (Wanted::Operator, None) => TestProblem::NoOperator,
        (Wanted::Closing, None) => TestProblem::NoClosing,
    }
}

// Where the reading of a text as a test stops: at the end of a test, where an operator could go on.
#[tactic(auto, unfolding(crate::specs::Stops::stop_of))]
fn stop_of(alloc: Global, text: &[u8]) -> Result<Stop, NoMemory>
    ensures { IfOk result (λ stop. shown_stop stop ≡ stops.stop_of text.now) }
{
    match read(alloc, text) {
        Ok(_) => Ok(Stop {
            wanted: Wanted::Operator,
            rest: &[],
        }),
        Err(Halt::Stopped(stop)) => Ok(stop),
        Err(Halt::NoMemory) => Err(NoMemory),
    }
}

/// Says how far a text can be read as a test, and what is wrong there. A text that is a test is read to its end, where
/// an operator would be wanted in order to go on.
///
/// `NoMemory` if an allocation fails.
///
/// Source: ESI Language Specification 1.0, "Expressions"; the spelling of operands and the limits are our profile.
pub fn trouble_of(alloc: Global, text: &[u8]) -> Result<TestTrouble, NoMemory>
    ensures { IfOk result (λ trouble. trouble ≡ spec.trouble_of text.now) }
{
    let stop = stop_of(alloc, text)?;
    Ok(TestTrouble {
        problem: problem_of(stop.wanted, stop.rest),
        place: text.len().saturating_sub(stop.rest.len()),
    })
}
