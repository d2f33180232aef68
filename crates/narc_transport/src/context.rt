//! What a datagram or a segment is read with.

/// The addresses of the IPv4 header that a datagram or a segment is behind.
#[derive(Clone, Copy, Drop)]
pub struct Ends {
    /// The source's address.
    pub src: [u8; 4],
    /// The destination's address.
    pub dst: [u8; 4],
}
