//! The fields of a frame: their numbers, in the order in which they are judged, and their names.
ghost use Rattle.std.specs.Prelude.{◌≡◌, ◌≤◌, length};
ghost use Rattle.narc_packet.specs.Field.{field_name};

use narc_format::Field;

pub const ETHERNET_DESTINATION: u8 = 1;

pub const ETHERNET_SOURCE: u8 = 2;

pub const ETHERNET_TYPE: u8 = 3;

pub const ARP_HARDWARE: u8 = 4;

pub const ARP_PROTOCOL: u8 = 5;

pub const ARP_HARDWARE_SIZE: u8 = 6;

pub const ARP_PROTOCOL_SIZE: u8 = 7;

pub const ARP_OPERATION: u8 = 8;

pub const ARP_SENDER_HARDWARE: u8 = 9;

pub const ARP_SENDER_PROTOCOL: u8 = 10;

pub const ARP_TARGET_HARDWARE: u8 = 11;

pub const ARP_TARGET_PROTOCOL: u8 = 12;

pub const IPV4_VERSION: u8 = 13;

pub const IPV4_HEADER_LENGTH: u8 = 14;

pub const IPV4_TOS: u8 = 15;

pub const IPV4_TOTAL_LENGTH: u8 = 16;

pub const IPV4_FLAGS: u8 = 17;

pub const IPV4_OPTIONS: u8 = 18;

pub const IPV4_CHECKSUM: u8 = 19;

pub const UDP_SOURCE: u8 = 20;

pub const UDP_DESTINATION: u8 = 21;

pub const UDP_LENGTH: u8 = 22;

pub const UDP_CHECKSUM: u8 = 23;

pub const TCP_SOURCE: u8 = 24;

pub const TCP_DESTINATION: u8 = 25;

pub const TCP_SEQUENCE: u8 = 26;

pub const TCP_ACKNOWLEDGMENT: u8 = 27;

pub const TCP_OFFSET: u8 = 28;

pub const TCP_OPTIONS: u8 = 29;

pub const TCP_CHECKSUM: u8 = 30;

/// How many fields there are: their numbers are 1 to `COUNT`.
pub const COUNT: u8 = TCP_CHECKSUM;

/// The name of a field, as a refusal prints it; `unnamed` for a number that is no field's of a frame.
pub fn name(field: Field) -> &'static str
    ensures value { result.now ≡ field_name field }
    ensures bound { length result.now ≤ 20 }
{
    if field.number() > COUNT {
        "unnamed"
    } else {
        known_name(field.number())
    }
}

fn known_name(number: u8) -> &'static str
    requires { number ≤ COUNT }
    ensures value { result.now ≡ field_name number }
    ensures bound { length result.now ≤ 20 }
{
    match number {
        ETHERNET_DESTINATION => "ethernet.destination",
        ETHERNET_SOURCE => "ethernet.source",
        ETHERNET_TYPE => "ethernet.type",
        ARP_HARDWARE => "arp.hardware",
        ARP_PROTOCOL => "arp.protocol",
        ARP_HARDWARE_SIZE => "arp.hardware_size",
        ARP_PROTOCOL_SIZE => "arp.protocol_size",
        ARP_OPERATION => "arp.operation",
        ARP_SENDER_HARDWARE => "arp.sender_hardware",
        ARP_SENDER_PROTOCOL => "arp.sender_protocol",
        ARP_TARGET_HARDWARE => "arp.target_hardware",
        ARP_TARGET_PROTOCOL => "arp.target_protocol",
        IPV4_VERSION => "ipv4.version",
        IPV4_HEADER_LENGTH => "ipv4.header_length",
        IPV4_TOS => "ipv4.tos",
        IPV4_TOTAL_LENGTH => "ipv4.total_length",
        IPV4_FLAGS => "ipv4.flags",
        IPV4_OPTIONS => "ipv4.options",
        IPV4_CHECKSUM => "ipv4.checksum",
        UDP_SOURCE => "udp.source",
        UDP_DESTINATION => "udp.destination",
        UDP_LENGTH => "udp.length",
        UDP_CHECKSUM => "udp.checksum",
        TCP_SOURCE => "tcp.source",
        TCP_DESTINATION => "tcp.destination",
        TCP_SEQUENCE => "tcp.sequence",
        TCP_ACKNOWLEDGMENT => "tcp.acknowledgment",
        TCP_OFFSET => "tcp.offset",
        TCP_OPTIONS => "tcp.options",
        TCP_CHECKSUM => "tcp.checksum",
        _ => "unnamed",
    }
}
