//! What holds of texts, whoever reads or writes them.
ghost use Rattle.narc_reading.specs.Laws.{EachTextHasOnePacket};

/// No two packets that have a frame have the same text.
pub fn each_text_has_one_packet()
    ensures { EachTextHasOnePacket }
{}
