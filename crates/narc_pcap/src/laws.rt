//! What holds of captures by their definition. No code runs here.
ghost use Rattle.narc_pcap.specs.Laws.{CapturesAreCut, WrittenHeadersAreRead, WrittenRecordsAreRead};

/// A capture with a header is its header, its records one behind the other, and a rest of which no front is a record;
/// and its octets are cut in no other way.
pub fn captures_are_cut()
    ensures { CapturesAreCut }
{}

/// What is written of a header, and of the header of a record, is read as it.
pub fn written_captures_are_read()
    ensures headers { WrittenHeadersAreRead }
    ensures records { WrittenRecordsAreRead }
{}
