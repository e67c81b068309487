//! Laws of the command line. Each function's clauses are its laws; none of them does anything.
ghost use Rattle.edge_commands.specs.Laws.{DefaultsAreAsked, OrderIsAsked, AheadIsAsked, LevelsAreAsked, AllAreAsked, WhyIsAsked, OtherLevelsAreRefused, OptionsWantWords, OptionsStandOnce, FilesAreAsked, FilesAreWanted};

/// What words that are given in full ask for. The law is about words of an option that don't begin
/// with `-`, since no others can be read.
pub fn words_ask()
    ensures default { DefaultsAreAsked }
    ensures order { OrderIsAsked }
    ensures ahead { AheadIsAsked }
    ensures levels { LevelsAreAsked }
    ensures all { AllAreAsked }
    ensures why { WhyIsAsked }
{}

/// Words that are refused: a number of levels outside the limits, an option without its value, an option
/// given twice.
pub fn words_are_refused()
    ensures levels { OtherLevelsAreRefused }
    ensures without { OptionsWantWords }
    ensures twice { OptionsStandOnce }
{}

/// What the words of `check` ask for, given in full; a file's name doesn't begin with `-`, except for
/// standard input's.
pub fn files_are_asked()
    ensures files { FilesAreAsked }
    ensures none { FilesAreWanted }
{}
