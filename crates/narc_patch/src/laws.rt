//! What holds of frames after assignments, by their definition. No code runs here.
ghost use Rattle.narc_patch.specs.Laws.{OtherOctetsStay, PatchedIsEdited};

/// A frame of a packet is, once it is patched, a frame of the edited packet, and as long.
pub fn patched_frames_are_edited()
    ensures { PatchedIsEdited }
{}

/// An octet of a frame stays that is in no field that is assigned, and in no checksum that is mended for one.
pub fn other_octets_stay()
    ensures { OtherOctetsStay }
{}
