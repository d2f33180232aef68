//! A lamp's state, in 16 bits.
#![tactic(auto, unfolding(narc_rules::specs::Meanings::seq, narc_rules::specs::Meanings::constant, narc_rules::specs::Meanings::flag, narc_rules::specs::Meanings::enumerated, narc_rules::specs::Meanings::tested, narc_rules::specs::Meanings::word))]

ghost use Rattle.std.specs.Prelude.{◌≡◌, ◌↔◌, ℕ, Bool, List, ◌<◌, ◌≤◌, length, nat_lt, [], ◌∷◌, refl};
ghost use Rattle.narc_rules.specs.Bits.{bits, overlay};
ghost use Rattle.narc_rules.specs.Answer.{IsFrontAnswer};
ghost use Rattle.narc_rules.specs.Names.{named_in};
ghost use Rattle.narc_rules.specs.NamesLaws.{exact_table};
ghost use Rattle.narc_examples.specs.Lamp.{IsLamp, colour_number};
ghost use Rattle.narc_examples.specs.declared.lamp.Colour.{Colour};
ghost use Rattle.narc_examples.specs.declared.lamp.Colour.TheVariants.{Red, Green};

use narc_rules::{
    Const, Cursor, EnumOf, Fault, Flag, Format, Front, MAX_FRAME, Names, Test, Then, Where, Word,
    Writer, read_front,
};

/// 4 bits version, always 2; one bit that is 1 where the lamp is lit; 3 bits colour; 8 bits brightness, at most 100.
pub type Lamp = Then<
    Const<4, 2>,
    Then<Flag, Then<EnumOf<Word<3>, Colours>, Where<Word<8>, IsPercent>>>,
>;

/// Whether the lamp is lit, its colour and its brightness, behind the version.
pub type State = ((), (bool, (Colour, u64)));

#[derive(Drop, PartialEq, Eq)]
pub enum Colour {
    Red,
    Green,
}

/// Red is 1, and green is 2.
pub struct Colours;

impl Names for Colours {
    type Value = Colour;

    ghost name_of = { named_in ((1, Red) ∷ (2, Green) ∷ []) };

    ghost number_of = { colour_number };

    fn name(number: u64) -> Option<Colour> {
        match number {
            1 => Some(Colour::Red),
            2 => Some(Colour::Green),
            _ => None,
        }
    }

    fn number(value: &Colour) -> u64 {
        match value {
            Colour::Red => 1,
            Colour::Green => 2,
        }
    }

    // each row has its value's number, and each value is found by its number
    ghost exact = { exact_table colour_number ((1, Red) ∷ (2, Green) ∷ []) (refl, (refl, tt)) (elim [ Red ↦ refl | Green ↦ refl ]) };
}

/// At most 100.
pub struct IsPercent;

impl Test for IsPercent {
    type Ctx = ();

    type Value = u64;

    ghost holds = { λ c value. nat_lt value 101 };

    fn holds(_ctx: (), value: &u64) -> bool {
        *value < 101
    }
}

/// The state of a lamp at the front of the octets, and its 16 bits, or why there is none: the one answer.
pub fn read_lamp(octets: &[u8]) -> Result<Front<State>, Fault>
    requires { length octets.now ≤ MAX_FRAME }
    ensures { IsFrontAnswer ⟦<Lamp as Format<Cursor<'static>>>⟧.meaning tt (bits octets.now) result }
{
    read_front::<Lamp>((), octets)
}

/// Writes the state into the first 2 octets of the room.
#[tactic(auto, unfolding(narc_rules::specs::Meanings::bits_of_number, narc_rules::specs::Meanings::seq, narc_rules::specs::Meanings::constant, narc_rules::specs::Meanings::flag, narc_rules::specs::Meanings::enumerated, narc_rules::specs::Meanings::tested, narc_rules::specs::Meanings::word))]
pub fn write_lamp(state: &State, room: &mut [u8])
    requires bright { state.now.1.1.1 < 101 }
    requires small { length room.old ≤ MAX_FRAME }
    requires enough { 2 ≤ length room.old }
    ensures len { length room.new ≡ length room.old }
    ensures put { bits room.new ≡ overlay (bits room.old) 0 (⟦<Lamp as Format<Cursor<'static>>>⟧.meaning.spelling tt state.now) }
{
    let mut writer = Writer::new();
    <Lamp as Format<Cursor<'static>>>::write((), state, room, &mut writer);
}

/// Bits stand for a state exactly where they are its version, state, colour and brightness.
pub fn lamp_is_its_bits()
    ensures { (lit : Bool) (colour : Colour) (brightness : ℕ) (b : List Bool) → ⟦<Lamp as Format<Cursor<'static>>>⟧.meaning.stands tt (tt, (lit, (colour, brightness))) b ↔ IsLamp lit colour brightness b }
{}

/// The conditions of the rules hold.
pub fn lamp_is_sound()
    ensures { ⟦<Lamp as Format<Cursor<'static>>>⟧.meaning.sound }
{}
