//! Laws of the readings, as contracts of functions that do nothing.
ghost use Rattle.surrogate_headers.specs.Parting.{CutsValues};
ghost use Rattle.surrogate_headers.specs.Spelling.{ReadsDirectives};

/// The parts of a value are those that the commas outside quotes leave, and no others.
///
/// Our profile.
pub fn values_are_cut_outside_quotes()
    ensures { CutsValues }
{}

/// A part that is read as a directive is spelled as one, and each spelling is read as its directive.
///
/// Source: Edge Architecture Specification 1.0, "Surrogate-Control Header".
pub fn directives_are_read_as_spelled()
    ensures { ReadsDirectives }
{}
