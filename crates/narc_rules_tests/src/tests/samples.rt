//! The formats that are tried.
ghost use Rattle.std.specs.Prelude.{◌≡◌, ◌<◌, ◌^◌, nat_eq, if◌then◌else◌};
ghost use Rattle.narc_list.specs.Bytes.{all_octets};
ghost use Rattle.narc_list.specs.BytesLaws.{all_octets_laws};
ghost use Rattle.narc_compose.specs.declared.either.Either.TheVariants.{Left, Right};

use narc_bits::{Cursor, Steps, Writer};
use narc_compose::{
    Carry, Choose, Either, Named, NoContext, Part, Parted, Pick, Seq, SeqTail, Strip, Then, Union,
};
use narc_format::{Fault, Tail};
use narc_list::Bytes;
use narc_scalar::Word;
use std::sync::ledger::Ledger;

/// The fields of these formats.
pub const SOURCE: u8 = 1;

pub const DESTINATION: u8 = 2;

pub const DATAGRAM: u8 = 3;

/// The first part is the context of the second.
pub struct Kind;

impl Carry<u64, (), u64> for Kind {
    type Ctx = ();

    ghost first_of = { λ c. c };

    ghost second_of = { λ c kind. kind };

    ghost valid = { λ c. Unit {0} };

    fn first(_ctx: ()) {}

    fn second(_ctx: (), kind: &u64) -> u64 {
        *kind
    }
}

/// Kind 0 is the left member.
pub struct ByKind;

impl Pick<(), ()> for ByKind {
    type Ctx = u64;

    ghost pick_of = { λ kind. if nat_eq kind 0 then Left tt else Right tt };

    ghost valid = { λ kind. kind < 2 ^ 64 };

    fn pick(kind: u64) -> Either<(), ()> {
        if kind == 0 {
            Either::Left(())
        } else {
            Either::Right(())
        }
    }
}

/// The first bit is forgotten, and written as 0.
pub struct WithoutBit;

impl Choose<(), (u64, u64)> for WithoutBit {
    type Value = u64;

    ghost strip_of = { λ raw. raw.1 };

    ghost choose_of = { λ c value. (0, value) };

    ghost alike = { λ v w. v ≡ w };

    fn strip(raw: (u64, u64)) -> u64 {
        raw.1
    }

    fn choose(_ctx: (), value: &u64) -> (u64, u64) {
        (0, *value)
    }
}

/// The first octet is forgotten, and written as 0.
pub struct WithoutOctet;

impl<'a> Choose<(), (u64, &'a [u8])> for WithoutOctet {
    type Value = &'a [u8];

    ghost strip_of = { λ raw. raw.1 };

    ghost choose_of = { λ c value. (0, value) };

    ghost alike = { λ v w. v.now ≡ w.now };

    fn strip(raw: (u64, &'a [u8])) -> &'a [u8] {
        raw.1
    }

    fn choose(_ctx: (), value: &&'a [u8]) -> (u64, &'a [u8]) {
        (0, *value)
    }
}

/// All octets, by their calls alone.
pub struct Payload;

impl<'a> Part<Cursor<'a>> for Payload {
    type Ctx = ();

    type Value = &'a [u8];

    ghost meaning = { all_octets };

    fn read<L: Ledger>(
        ctx: (),
        cursor: &mut Cursor<'a>,
        steps: &mut Steps<L>,
    ) -> Result<&'a [u8], Fault> {
        <Bytes as Tail<Cursor<'a>>>::read(ctx, cursor, steps)
    }

    fn size(ctx: (), value: &&'a [u8]) -> usize {
        <Bytes as Tail<Cursor<'a>>>::size(ctx, value)
    }

    fn write(ctx: (), value: &&'a [u8], room: &mut [u8], writer: &mut Writer) {
        <Bytes as Tail<Cursor<'a>>>::write(ctx, value, room, writer)
    }

    ghost laws = { all_octets_laws };
}

pub type Ports = Then<Named<Word<16>, SOURCE>, Named<Word<16>, DESTINATION>>;

pub type Datagram = SeqTail<Ports, Parted<Payload>, NoContext>;

pub type Kinded = Seq<Word<8>, Union<ByKind, Word<8>, Word<16>>, Kind>;

pub type KindedTail = SeqTail<
    Word<8>,
    Union<ByKind, Bytes, SeqTail<Word<8>, Bytes, NoContext>>,
    Kind,
>;

pub type Spare = Strip<Then<Word<1>, Word<7>>, WithoutBit>;

pub type SpareTail = Strip<SeqTail<Word<8>, Bytes, NoContext>, WithoutOctet>;
