//! What the type of octets says of their numbers.
ghost use Rattle.narc_bits.specs.Octets.{IsOctets};

/// The items of a slice of octets are octets: the call does nothing, and ensures it.
pub fn known_octets(octets: &[u8])
    ensures { IsOctets octets.now }
{}
