//! Laws of heads and of responses, as contracts of functions that do nothing.
ghost use Rattle.page_http.specs.Laws.{AsksOnce, CarriesAnswers, GivesItsBytes, TellsOneThing};

/// A head asks for at most one URL, and says at most one thing to the page's templates.
pub fn heads_ask_for_one_page()
    ensures { AsksOnce }
{}

/// An outcome has at most one response.
pub fn outcomes_are_told_in_one_way()
    ensures { TellsOneThing }
{}

/// HTTP can carry the status and the content type of every answer that the edge accepts, so no page
/// made from such an answer is sent as a fault.
pub fn answers_can_be_sent()
    ensures { CarriesAnswers }
{}

/// The bytes that came from a body are the first of the page's, and at the body's end all of them.
pub fn bodies_give_their_bytes()
    ensures { GivesItsBytes }
{}
