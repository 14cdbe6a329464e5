//! Laws of string encodings.

ghost use Rattle.wit_metadata.specs.{Encodings.CodesAreRead, Said.EncodingsAreReadBack};

/// The byte of an encoding stands for it, and no byte above 2 stands for one.
pub fn codes_are_read()
    ensures { CodesAreRead }
{}

/// What `encoding_in` answers of bytes that carry an encoding, as those of `encode`, is that encoding.
pub fn encodings_are_read_back()
    ensures { EncodingsAreReadBack }
{}
