//! What holds of the header and the field that decisions say. The functions do nothing: what each ensures is the law.

ghost use Rattle.frame_reader.specs.Laws.{OneFieldOfHeader, OneHeader, SomeFieldOfHeader, SomeHeader};

/// Decisions say exactly one header, or one fault of it (own).
pub fn one_header()
    ensures some { SomeHeader }
    ensures no_other { OneHeader }
{}

/// A header has exactly one number and PSDU in the decisions of its DATA symbols (own).
pub fn one_field_of_header()
    ensures some { SomeFieldOfHeader }
    ensures no_other { OneFieldOfHeader }
{}
