//! A station's message: what it measured, and a note behind it.
#![tactic(auto, unfolding(narc_rules::specs::Meanings::all_octets, narc_rules::specs::Meanings::constant, narc_rules::specs::Meanings::enumerated, narc_rules::specs::Meanings::fixed_octets, narc_rules::specs::Meanings::seq, narc_rules::specs::Meanings::seq_tail, narc_rules::specs::Meanings::stripped, narc_rules::specs::Meanings::tested, narc_rules::specs::Meanings::united, narc_rules::specs::Meanings::word))]

ghost use Rattle.std.specs.Prelude.{◌≡◌, ◌*◌, ◌≤◌, ◌&&◌, length, nat_lt, [], ◌∷◌, refl};
ghost use Rattle.narc_rules.specs.Bits.{bits, overlay};
ghost use Rattle.narc_rules.specs.Either.TheVariants.{Left, Right};
ghost use Rattle.narc_rules.specs.Answer.{IsAllAnswer};
ghost use Rattle.narc_rules.specs.Names.{named_in};
ghost use Rattle.narc_rules.specs.NamesLaws.{exact_table};
ghost use Rattle.narc_examples.specs.Sample.{sample_of, raw_sample};
ghost use Rattle.narc_examples.specs.declared.message.Kind.TheVariants.{Temperature, Place};

use narc_rules::{
    Bytes, Carry, Choose, Const, Cursor, Either, EnumOf, Fault, MAX_FRAME, Names, NoContext,
    Octets4, Pick, Seq, SeqTail, Strip, Tail, Test, Then, Union, Where, Word, Writer, read_all,
};

// octet 0     0x7e
// octet 1     station, 1 to 250
// octet 2     kind: 1 temperature, 2 place
// octet 3     temperature, 2 octets; or place, 4 octets
// behind it   a note: all octets that are left
pub type Message = SeqTail<Then<Const<8, 0x7e>, Then<Station, SampleFormat>>, Bytes, NoContext>;

type Station = Where<Word<8>, IsStation>;

type SampleFormat = Strip<RawSample, AsSample>;

type RawSample = Seq<EnumOf<Word<8>, Kinds>, Union<ByKind, Word<16>, Octets4>, KindFirst>;

/// What a message says: the station, what was measured, and the note.
pub type Said<'a> = (((), (u64, Sample)), &'a [u8]);

#[derive(Clone, Copy)]
pub enum Kind {
    Temperature,
    Place,
}

#[derive(Clone, Copy, PartialEq, Eq)]
pub enum Sample {
    /// In hundredths of a kelvin.
    Temperature(u64),
    Place([u8; 4]),
}

/// Temperature is 1, and place is 2.
pub struct Kinds;

impl Names for Kinds {
    type Value = Kind;

    ghost name_of = { named_in ((1, Temperature) ∷ (2, Place) ∷ []) };

    ghost number_of = { elim [ Temperature ↦ 1 | Place ↦ 2 ] };

    fn name(number: u64) -> Option<Kind> {
        match number {
            1 => Some(Kind::Temperature),
            2 => Some(Kind::Place),
            _ => None,
        }
    }

    fn number(value: &Kind) -> u64 {
        match value {
            Kind::Temperature => 1,
            Kind::Place => 2,
        }
    }

    // each row has its value's number, and each value is found by its number
    ghost exact = { exact_table (elim [ Temperature ↦ 1 | Place ↦ 2 ]) ((1, Temperature) ∷ (2, Place) ∷ []) (refl, (refl, tt)) (elim [ Temperature ↦ refl | Place ↦ refl ]) };
}

/// From 1 to 250.
pub struct IsStation;

impl Test for IsStation {
    type Ctx = ();

    type Value = u64;

    ghost holds = { λ c value. nat_lt 0 value && nat_lt value 251 };

    fn holds(_ctx: (), value: &u64) -> bool {
        0 < *value && *value < 251
    }
}

/// The kind is the context of what is behind it.
pub struct KindFirst;

impl Carry<Kind, (), Kind> for KindFirst {
    type Ctx = ();

    ghost first_of = { λ c. c };

    ghost second_of = { λ c kind. kind };

    ghost valid = { λ c. Unit {0} };

    fn first(_ctx: ()) {}

    fn second(_ctx: (), kind: &Kind) -> Kind {
        *kind
    }
}

/// A temperature is the left member, and a place the right one.
pub struct ByKind;

impl Pick<(), ()> for ByKind {
    type Ctx = Kind;

    ghost pick_of = { elim [ Temperature ↦ Left tt | Place ↦ Right tt ] };

    ghost valid = { λ kind. Unit {0} };

    fn pick(kind: Kind) -> Either<(), ()> {
        match kind {
            Kind::Temperature => Either::Left(()),
            Kind::Place => Either::Right(()),
        }
    }
}

/// A kind and what was measured, as one value.
pub struct AsSample;

impl Choose<(), (Kind, Either<u64, [u8; 4]>)> for AsSample {
    type Value = Sample;

    ghost strip_of = { λ raw. sample_of raw.1 };

    ghost choose_of = { λ c v. raw_sample v };

    ghost alike = { λ v w. v ≡ w };

    fn strip(raw: (Kind, Either<u64, [u8; 4]>)) -> Sample {
        match raw.1 {
            Either::Left(temperature) => Sample::Temperature(temperature),
            Either::Right(place) => Sample::Place(place),
        }
    }

    fn choose(_ctx: (), value: &Sample) -> (Kind, Either<u64, [u8; 4]>) {
        match value {
            Sample::Temperature(temperature) => (Kind::Temperature, Either::Left(*temperature)),
            Sample::Place(place) => (Kind::Place, Either::Right(*place)),
        }
    }
}

/// What the octets say, or why they are no message: the one answer.
pub fn read_message<'a>(octets: &'a [u8]) -> Result<Said<'a>, Fault>
    requires { length octets.now ≤ MAX_FRAME }
    ensures { IsAllAnswer ⟦<Message as Tail<Cursor<'static>>>⟧.meaning tt (bits octets.now) result }
{
    read_all::<Message>((), octets)
}

/// Writes the message at the front of the room, and answers how many bits it has.
pub fn write_message<'a>(said: &Said<'a>, room: &mut [u8]) -> usize
    requires admitted { ⟦<Message as Tail<Cursor<'static>>>⟧.meaning.admits tt said.now }
    requires small { length room.old ≤ MAX_FRAME }
    requires enough { length (⟦<Message as Tail<Cursor<'static>>>⟧.meaning.spelling tt said.now) ≤ 8 * length room.old }
    ensures bits { result ≡ length (⟦<Message as Tail<Cursor<'static>>>⟧.meaning.spelling tt said.now) }
    ensures len { length room.new ≡ length room.old }
    ensures put { bits room.new ≡ overlay (bits room.old) 0 (⟦<Message as Tail<Cursor<'static>>>⟧.meaning.spelling tt said.now) }
{
    let mut writer = Writer::new();
    <Message as Tail<Cursor<'a>>>::write((), said, room, &mut writer);
    writer.place()
}

/// The conditions of the rules hold.
pub fn message_is_sound()
    ensures { ⟦<Message as Tail<Cursor<'static>>>⟧.meaning.sound }
{}
