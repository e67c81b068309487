//! What holds of every list of calls of a board. Each law is the contract of a function that does
//! nothing.

ghost use Rattle.answer_board.specs.Laws.{BoardLaw, StrangersStayOut, SlotsStay, LogIsLookedUp};

/// Over every list of calls of a new board, in terms of the calls and their answers alone:
/// URLs are numbered in order of their first opening; tickets are given for these numbers in
/// order, so a slot gives one, which names its URL; a receipt is accepted once, for a number whose
/// ticket was given, and names the URL of that number; a slot keeps the answer of that receipt from
/// then on; the log has the answers of the receipts in order. Takes no memory.
///
/// Our profile.
pub fn every_run_keeps_the_law()
    ensures { BoardLaw }
{}

/// A receipt, whichever board its ticket came from, is accepted only for the slot with its own
/// number and URL. Takes no memory.
///
/// Our profile.
pub fn strangers_stay_out()
    ensures { StrangersStayOut }
{}

/// Over every call a URL keeps its number, a number its URL and its depth, and a slot its answer.
/// Takes no memory.
///
/// Our profile.
pub fn slots_stay()
    ensures { SlotsStay }
{}

/// The log is a table of the answers that are in: no URL is logged twice, what the log answers for a
/// URL is what the URL's slot is filled with, and a receipt that is accepted is for a URL that isn't
/// logged. Takes no memory.
///
/// Our profile.
pub fn log_is_looked_up()
    ensures { LogIsLookedUp }
{}
