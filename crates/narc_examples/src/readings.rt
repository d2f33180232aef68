//! What a logger read: how many temperatures, and so many of them.
#![tactic(auto, unfolding(narc_rules::specs::Meanings::counted, narc_rules::specs::Meanings::seq, narc_rules::specs::Meanings::tested, narc_rules::specs::Meanings::word))]

ghost use Rattle.std.specs.Prelude.{◌≡◌, ◌*◌, ◌≤◌, length, nat_le};
ghost use Rattle.narc_rules.specs.Bits.{bits, overlay};
ghost use Rattle.narc_rules.specs.Answer.{IsFrontAnswer};

use arrayvec::ArrayVec;
use narc_rules::{
    Count, Counted, Cursor, Fault, Format, Front, Gather, MAX_FRAME, NumberFirst, Seq, Test, Where,
    Word, Writer, read_front,
};
use std::marker::Model;

/// The number of readings, in one octet, and each reading, in two.
pub type Log = Seq<Where<Word<8>, IsFew>, Counted<Word<16>, Readings, AsFew>, NumberFirst>;

/// At most four readings.
#[derive(Drop)]
pub struct Readings {
    items: ArrayVec<u64, 4>,
}

impl Model for Readings {
    ghost use Rattle.std.specs.Prelude.{ℕ, List, ◌≤◌, length};

    ghost Value = { List ℕ };

    ghost view = { λ l. l.items.items };

    ghost invariant = { λ l. length l.items.items ≤ 4 };
}

impl Gather<u64> for Readings {
    ghost CAP = { 4 };

    ghost items = { λ l. l };

    const CAP: usize = 4;

    fn empty() -> Readings {
        Readings {
            items: ArrayVec::new(),
        }
    }

    fn len(&self) -> usize {
        self.items.len()
    }

    fn get(&self, i: usize) -> &u64 {
        &self.items[i]
    }

    fn push(&mut self, item: u64) {
        self.items.push(item);
    }
}

/// No more than `Readings` holds.
pub struct IsFew;

impl Test for IsFew {
    type Ctx = ();

    type Value = u64;

    ghost holds = { λ c value. nat_le value 4 };

    fn holds(_ctx: (), value: &u64) -> bool {
        *value <= 4
    }
}

/// As many readings as the number says, of which it is known that they are few.
pub struct AsFew;

impl Count for AsFew {
    type Ctx = usize;

    ghost count_of = { λ c. c };

    ghost valid = { λ c. c ≤ 4 };

    fn count(ctx: usize) -> usize {
        ctx
    }
}

/// The readings at the front of the octets, or why there are none: the one answer.
pub fn read_log(octets: &[u8]) -> Result<Front<(u64, Readings)>, Fault>
    requires { length octets.now ≤ MAX_FRAME }
    ensures { IsFrontAnswer ⟦<Log as Format<Cursor<'static>>>⟧.meaning tt (bits octets.now) result }
{
    log_is_sound();
    read_front::<Log>((), octets)
}

/// Writes the readings at the front of the room, and answers how many bits they have.
pub fn write_log(log: &(u64, Readings), room: &mut [u8]) -> usize
    requires admitted { ⟦<Log as Format<Cursor<'static>>>⟧.meaning.admits tt log.now }
    requires small { length room.old ≤ MAX_FRAME }
    requires enough { length (⟦<Log as Format<Cursor<'static>>>⟧.meaning.spelling tt log.now) ≤ 8 * length room.old }
    ensures bits { result ≡ length (⟦<Log as Format<Cursor<'static>>>⟧.meaning.spelling tt log.now) }
    ensures len { length room.new ≡ length room.old }
    ensures put { bits room.new ≡ overlay (bits room.old) 0 (⟦<Log as Format<Cursor<'static>>>⟧.meaning.spelling tt log.now) }
{
    log_is_sound();
    let mut writer = Writer::new();
    <Log as Format<Cursor<'static>>>::write((), log, room, &mut writer);
    writer.place()
}

/// The conditions of the rules hold.
pub fn log_is_sound()
    ensures { ⟦<Log as Format<Cursor<'static>>>⟧.meaning.sound }
{}
