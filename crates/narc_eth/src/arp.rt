//! ARP packets for Ethernet and IPv4.
ghost use Rattle.std.specs.Prelude.{◌≡◌, ◌↔◌, ℕ, List, Bool};
ghost use Rattle.narc_bits.specs.Octets.{IsOctets};
ghost use Rattle.narc_bits.specs.Bits.{bits};
ghost use Rattle.narc_format.specs.declared.fault.Fault.{Fault};
ghost use Rattle.narc_packet.specs.declared.packet.Arp.{Arp};
ghost use Rattle.narc_packet.specs.Ranges.{IsArpInRange};
ghost use Rattle.narc_packet.specs.Frame.{arp_octets};
ghost use Rattle.narc_packet.specs.Refusal.{arp_rows};
ghost use Rattle.narc_layout.specs.FirstFault.{IsFirstFault};
ghost use Rattle.narc_eth.specs.ArpPacket.{RawArp, arp_of, raw_arp};

use narc_bits::Cursor;
use narc_compose::{Choose, Named, Strip, Then};
use narc_format::Format;
use narc_packet::{Arp, field};
use narc_scalar::{Const, Octets4, Octets6, Word};

// 32 bits a line, from the first octet behind the Ethernet header (RFC 826, "Packet format"):
//
//     +---------------+---------------+---------------+---------------+
//  0  |           hardware            |           protocol            |
//     +---------------+---------------+---------------+---------------+
//  4  | hardware size | protocol size |           operation           |
//     +---------------+---------------+---------------+---------------+
//  8  |                        sender hardware                        |
//     +                               +---------------+---------------+
// 12  |                               |        sender protocol        |
//     +---------------+---------------+---------------+---------------+
// 16  |        sender protocol        |        target hardware        |
//     +---------------+---------------+                               +
// 20  |                                                               |
//     +---------------+---------------+---------------+---------------+
// 24  |                        target protocol                        |
//     +---------------+---------------+---------------+---------------+
type Hardware = Named<Const<16, 1>, { field::ARP_HARDWARE }>;

type Protocol = Named<Const<16, 0x0800>, { field::ARP_PROTOCOL }>;

type HardwareSize = Named<Const<8, 6>, { field::ARP_HARDWARE_SIZE }>;

type ProtocolSize = Named<Const<8, 4>, { field::ARP_PROTOCOL_SIZE }>;

type Operation = Named<Word<16>, { field::ARP_OPERATION }>;

type SenderHardware = Named<Octets6, { field::ARP_SENDER_HARDWARE }>;

type SenderProtocol = Named<Octets4, { field::ARP_SENDER_PROTOCOL }>;

type TargetHardware = Named<Octets6, { field::ARP_TARGET_HARDWARE }>;

type TargetProtocol = Named<Octets4, { field::ARP_TARGET_PROTOCOL }>;

/// What the addresses are: of Ethernet and IPv4, with 6 and 4 octets.
type Kind = Then<Then<Hardware, Protocol>, Then<HardwareSize, ProtocolSize>>;

/// The addresses of sender and target.
type Addresses = Then<Then<SenderHardware, SenderProtocol>, Then<TargetHardware, TargetProtocol>>;

/// An ARP packet for Ethernet and IPv4 (RFC 826), 28 octets.
///
/// Octets are refused with the first field that they do not hold, or that has another number than it must, at its first
/// bit.
pub type ArpFormat = Strip<Then<Kind, Then<Operation, Addresses>>, AsArp>;

/// An address of each kind.
type Address = ([u8; 6], [u8; 4]);

/// The values of the fields.
type RawArp = ((((), ()), ((), ())), (u64, (Address, Address)));

/// The fields of an ARP packet as the packet.
pub struct AsArp;

impl Choose<(), RawArp> for AsArp {
    type Value = Arp;

    ghost strip_of = { arp_of };

    ghost choose_of = { λ c a. raw_arp a };

    ghost alike = { λ a b. a ≡ b };

    fn strip(raw: RawArp) -> Arp {
        let (_, (operation, ((sender_mac, sender_ip), (target_mac, target_ip)))) = raw;
        Arp {
            op: (operation % 65536) as u16,
            sender_mac,
            sender_ip,
            target_mac,
            target_ip,
        }
    }

    fn choose(_ctx: (), arp: &Arp) -> RawArp {
        let sender = (arp.sender_mac, arp.sender_ip);
        let target = (arp.target_mac, arp.target_ip);
        ((((), ()), ((), ())), (u64::from(arp.op), (sender, target)))
    }
}

/// The conditions of the rules hold.
pub fn arp_format_is_sound()
    ensures { ⟦<ArpFormat as Format<Cursor<'static>>>⟧.meaning.sound }
{}

/// The bits that stand for a packet are those of its 28 octets, and no others.
pub fn arp_format_is_its_octets()
    ensures { (a : Arp) (b : List Bool) → ⟦<ArpFormat as Format<Cursor<'static>>>⟧.meaning.stands tt a b ↔ (IsArpInRange a × (b ≡ bits (arp_octets a))) }
{}

/// Octets behind the 14 of an Ethernet header are refused exactly where a row of ARP fails, with the field and the place
/// of the first.
pub fn arp_format_is_refused_by_row()
    ensures { (x : List ℕ) → IsOctets x → (f : Fault) → ⟦<ArpFormat as Format<Cursor<'static>>>⟧.meaning.refuses tt (bits x) f ↔ IsFirstFault 14 (arp_rows x) f }
{}
