//! What holds of every `FailedAnswers`. Each law is the contract of a function that does nothing. Our profile.

ghost use Rattle.std.specs.Prelude.{◌≡◌};
ghost use Rattle.failed_answers.specs.Law.{AnswerEndsRest, RestsWhole};

use crate::entries::MAX_URLS;

/// Within the rest of a URL its failing answer is given again; from the end of the rest on the URL is asked.
pub fn a_rest_is_whole()
    ensures { RestsWhole }
{}

/// Once a URL has answered it is asked, whatever it has answered before.
pub fn an_answer_ends_the_rest()
    ensures { AnswerEndsRest }
{}

/// How many URLs may rest, as a number.
pub fn limit_of_urls()
    ensures { MAX_URLS ≡ 1024 }
{}
