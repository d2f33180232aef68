//! The header of VXLAN (RFC 7348, section 5): bits that are free when read, fields with names, and a struct as value.
#![tactic(auto, unfolding(narc_rules::specs::Meanings::constant, narc_rules::specs::Meanings::named, narc_rules::specs::Meanings::seq, narc_rules::specs::Meanings::stripped, narc_rules::specs::Meanings::word))]

ghost use Rattle.std.specs.Prelude.{◌≡◌, ◌↔◌, ℕ, ◌%◌, ◌<◌, ◌≤◌, ◌^◌, List, Bool, length};
ghost use Rattle.narc_rules.specs.Bits.{bits, overlay};
ghost use Rattle.narc_rules.specs.Answer.{IsFrontAnswer};
ghost use Rattle.narc_examples.specs.Vxlan.{IsVxlan, name_of_field};
ghost use Rattle.narc_examples.specs.declared.vxlan.Header.{Header};

use narc_rules::{
    Choose, Const, Cursor, Fault, Field, Format, Front, MAX_FRAME, Named, Strip, Then, Word,
    Writer, read_front,
};

/// The fields that a refusal names.
pub const FLAG: u8 = 1;

pub const IDENTIFIER: u8 = 2;

/// What a field is called.
pub fn field_name(field: Field) -> &'static str
    ensures { result.now ≡ name_of_field field }
{
    if field.number() == FLAG {
        "vxlan.flag"
    } else if field.number() == IDENTIFIER {
        "vxlan.identifier"
    } else {
        "unnamed"
    }
}

//  |R|R|R|R|I|R|R|R|            reserved                           |
//  |                VXLAN network identifier       |   reserved    |
type RawVxlan = Then<
    Word<4>,
    Then<
        Named<Const<1, 1>, FLAG>,
        Then<Word<3>, Then<Word<24>, Then<Named<Word<24>, IDENTIFIER>, Word<8>>>>,
    >,
>;

/// The flag I is 1. The reserved bits are any when read, and 0 when written.
pub type Vxlan = Strip<RawVxlan, AsHeader>;

#[derive(Clone, Copy, PartialEq, Eq)]
pub struct Header {
    /// The network identifier, below 2^24.
    pub vni: u32,
}

type Raw = (u64, ((), (u64, (u64, (u64, u64)))));

/// The header without its reserved bits.
pub struct AsHeader;

impl Choose<(), Raw> for AsHeader {
    type Value = Header;

    ghost strip_of = { λ raw. record { vni = raw.1.1.1.1.0 % 2 ^ 32 } };

    ghost choose_of = { λ c header. (0, (tt, (0, (0, (header.vni, 0))))) };

    ghost alike = { λ v w. v ≡ w };

    fn strip(raw: Raw) -> Header {
        let (_, ((), (_, (_, (vni, _))))) = raw;
        Header {
            vni: (vni % (1 << 32)) as u32,
        }
    }

    fn choose(_ctx: (), header: &Header) -> Raw {
        (0, ((), (0, (0, (u64::from(header.vni), 0)))))
    }
}

/// The header at the front of the octets, and its 64 bits, or why there is none: the one answer.
pub fn read_vxlan(octets: &[u8]) -> Result<Front<Header>, Fault>
    requires { length octets.now ≤ MAX_FRAME }
    ensures { IsFrontAnswer ⟦<Vxlan as Format<Cursor<'static>>>⟧.meaning tt (bits octets.now) result }
{
    read_front::<Vxlan>((), octets)
}

/// Writes the header into the first 8 octets of the room.
#[tactic(auto, unfolding(narc_rules::specs::Meanings::bits_of_number, narc_rules::specs::Meanings::constant, narc_rules::specs::Meanings::named, narc_rules::specs::Meanings::seq, narc_rules::specs::Meanings::stripped, narc_rules::specs::Meanings::word))]
pub fn write_vxlan(header: &Header, room: &mut [u8])
    requires identifier { header.now.vni < 2 ^ 24 }
    requires small { length room.old ≤ MAX_FRAME }
    requires enough { 8 ≤ length room.old }
    ensures len { length room.new ≡ length room.old }
    ensures put { bits room.new ≡ overlay (bits room.old) 0 (⟦<Vxlan as Format<Cursor<'static>>>⟧.meaning.spelling tt header.now) }
{
    let mut writer = Writer::new();
    <Vxlan as Format<Cursor<'static>>>::write((), header, room, &mut writer);
}

/// Bits stand for a header exactly where they have its identifier, and the flag is 1.
pub fn vxlan_is_its_bits()
    ensures { (header : Header) (b : List Bool) → ⟦<Vxlan as Format<Cursor<'static>>>⟧.meaning.stands tt header b ↔ IsVxlan header.vni b }
{}
