//! What `show`, `build` and `rewrite` are to each other, and to what they read.
ghost use Rattle.narc_laws.specs.CaptureTexts.{BuiltIsShown, CaptureTextsAreShown, ShownTextsAreBuilt};
ghost use Rattle.narc_laws.specs.PassedRecords.{PassedRecordsStay};
ghost use Rattle.narc_laws.specs.ReadCaptures.{ReadHeadersAreWritten, ReadRecordsAreWritten};
ghost use Rattle.narc_laws.specs.RewrittenCaptures.{RewrittenCapturesStay, UneditedPacketsStay};

/// `show` of what is made of a text writes the text again.
pub fn built_is_shown()
    ensures { BuiltIsShown }
{}

/// A text is one of a capture exactly where `show` writes it for a whole capture of packets.
pub fn capture_texts_are_shown()
    ensures { CaptureTextsAreShown }
{}

/// By what `run` promises, `build` is done exactly with the texts that `show` writes for whole captures of packets, and then it
/// wrote such a capture.
pub fn shown_texts_are_built()
    ensures { ShownTextsAreBuilt }
{}

/// What is read as the header of a capture or of a record is what is written of it. So `rewrite` and `patch` pass on the header of a capture
/// as the octets that came.
pub fn read_captures_are_written()
    ensures headers { ReadHeadersAreWritten }
    ensures records { ReadRecordsAreWritten }
{}

/// A record that is refused or snapped is written by `rewrite` and `patch` as the octets that came, whatever is assigned.
pub fn passed_records_stay()
    ensures { PassedRecordsStay }
{}

/// Without assignments each packet stays, and `rewrite` without assignments of what `rewrite` wrote writes the same octets.
pub fn rewritten_captures_stay()
    ensures packets { UneditedPacketsStay }
    ensures captures { RewrittenCapturesStay }
{}
