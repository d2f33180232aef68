//! Gaps, measures and the rules for lists.
#![tactic(auto, using(crate::proofs::Lists::gap_sound, crate::proofs::Lists::measured_sound, crate::proofs::Lists::pair_sound, crate::proofs::Lists::area_sound, crate::proofs::Lists::twins_sound), unfolding(narc_compose::specs::Gap::gapped, narc_compose::specs::Measured::measured, narc_scalar::specs::Word::word, narc_scalar::specs::Tested::tested, narc_list::specs::Bytes::all_octets, narc_list::specs::Region::region, narc_list::specs::Until::until, narc_list::specs::Counted::counted, narc_list::specs::Items::spellings, narc_bits::specs::Bits::bits_of_number, narc_bits::specs::Bits::bits))]

ghost use Rattle.std.specs.Prelude.{◌≡◌, ℕ, ◌≤◌, ◌<◌, ◌++◌, List, [], ◌∷◌, length, nat_le, slice_get};

use super::calls::{write, write_all};
use arrayvec::ArrayVec;
use narc_bits::{Cursor, MAX_FRAME};
use narc_compose::{Gap, Measure, Measured};
use narc_format::{Fault, Front, Gather, read_all, read_front};
use narc_list::{Bytes, Count, Counted, Region, Until};
use narc_scalar::{Test, Where, Word};
use std::marker::Model;

/// Bytes in any number of octets.
struct AnyOctets;

impl Measure<()> for AnyOctets {
    type Ctx = ();

    ghost measured_of = { λ c n. c };

    ghost written_of = { λ c. c };

    ghost valid = { λ c. Unit {0} };

    fn measured(_ctx: (), _octets: usize) {}

    fn written(_ctx: ()) {}
}

/// Two octets, or items.
struct Two;

impl Count for Two {
    type Ctx = ();

    ghost count_of = { λ c. 2 };

    ghost valid = { λ c. Unit {0} };

    fn count(_ctx: ()) -> usize {
        2
    }
}

/// An octet from `a` on.
struct IsLetter;

impl Test for IsLetter {
    type Ctx = ();

    type Value = u64;

    ghost holds = { λ c value. nat_le 97 value };

    fn holds(_ctx: (), value: &u64) -> bool {
        97 <= *value
    }
}

/// At most three numbers.
#[derive(Drop)]
struct Few {
    items: ArrayVec<u64, 3>,
}

impl Model for Few {
    ghost use Rattle.std.specs.Prelude.{ℕ, List, ◌≤◌, length};

    ghost Value = { List ℕ };

    ghost view = { λ l. l.items.items };

    ghost invariant = { λ l. length l.items.items ≤ 3 };
}

impl Gather<u64> for Few {
    ghost CAP = { 3 };

    ghost items = { λ l. l };

    const CAP: usize = 3;

    fn empty() -> Few {
        Few {
            items: ArrayVec::new(),
        }
    }

    fn len(&self) -> usize {
        self.items.len()
    }

    fn get(&self, i: usize) -> &u64 {
        &self.items[i]
    }

    fn push(&mut self, item: u64) {
        self.items.push(item);
    }
}

type Twins = Counted<Word<8>, Few, Two>;

type Port = Gap<Word<16>>;

type All = Measured<Bytes, AnyOctets>;

type Pair = Region<Bytes, Two>;

type Area<'a> = Region<Until<'a, Where<Word<8>, IsLetter>, 2, Two>, Two>;

fn read_gap(octets: &[u8]) -> Result<Front<u64>, Fault>
    requires { length octets.now ≤ MAX_FRAME }
{
    read_front::<Port>((), octets)
}

fn read_pair<'a>(octets: &'a [u8]) -> Result<Front<&'a [u8]>, Fault>
    requires { length octets.now ≤ MAX_FRAME }
{
    read_front::<Pair>((), octets)
}

#[test]
fn a_gap_holds_any_bits_and_is_written_as_0(rt: HostRuntime) {
    let port = read_gap(&[0, 80, 7, 8, 9]);
    assert!(rt;
        port == Ok(Front {
            value: 80,
            bits: 32
        })
    );
    assert!(rt; read_gap(&[0, 80, 0, 0]) == port);
    assert!(rt; read_gap(&[0, 80, 7]) == Err(Fault::unnamed().later_by(16)));
    let mut room = [0xff; 5];
    assert!(rt; write::<Cursor<'_>, Port>((), &80, &mut room) == (32, 32));
    assert!(rt; room == [0, 80, 0, 0, 0xff]);
}

#[test]
fn a_measured_tail_is_read_in_the_context_of_its_octets(rt: HostRuntime) {
    assert!(rt; read_all::<All>((), &[7, 8]) == Ok([7, 8].as_slice()));
    let mut room = [0xff; 3];
    assert!(rt; write_all::<Cursor<'_>, All>((), &[7, 8].as_slice(), &mut room) == (16, 16));
    assert!(rt; room == [7, 8, 0xff]);
}

#[test]
fn a_region_is_just_its_octets(rt: HostRuntime) {
    let pair = read_pair(&[7, 8, 9]);
    assert!(rt;
        pair == Ok(Front {
            value: [7, 8].as_slice(),
            bits: 16
        })
    );
    assert!(rt; read_pair(&[7]) == Err(Fault::unnamed()));
    let mut room = [0xff; 3];
    assert!(rt; write::<Cursor<'_>, Pair>((), &[7, 8].as_slice(), &mut room) == (16, 16));
    assert!(rt; room == [7, 8, 0xff]);
}

fn read_area<'a>(octets: &'a [u8]) -> Result<Front<&'a [u8]>, Fault>
    requires { length octets.now ≤ MAX_FRAME }
{
    read_front::<Area<'a>>((), octets)
}

#[test]
fn an_area_ends_at_an_octet_0(rt: HostRuntime) {
    let letter = read_area(b"a\0b");
    assert!(rt;
        letter
            == Ok(Front {
                value: b"a".as_slice(),
                bits: 16
            })
    );
    let letters = read_area(b"abc");
    assert!(rt;
        letters
            == Ok(Front {
                value: b"ab".as_slice(),
                bits: 16
            })
    );
    let none = read_area(&[0, 7]);
    assert!(rt; none == read_area(&[0, 0]));
    assert!(rt; read_area(&[97, 7]) == Err(Fault::unnamed().later_by(8)));
    let mut room = [0xff; 3];
    assert!(rt; write::<Cursor<'_>, Area<'_>>((), &b"a".as_slice(), &mut room) == (16, 16));
    assert!(rt; room == [97, 0, 0xff]);
}

fn read_twins(octets: &[u8]) -> Result<Front<Few>, Fault>
    requires { length octets.now ≤ MAX_FRAME }
{
    read_front::<Twins>((), octets)
}

#[test]
fn items_are_counted(rt: HostRuntime) {
    match read_twins(&[7, 8, 9]) {
        Ok(twins) => {
            assert!(rt; twins.bits == 16);
            assert!(rt; twins.value.len() == 2);
            assert!(rt; *twins.value.get(0) == 7 && *twins.value.get(1) == 8);
        }
        Err(_) => assert!(rt; false, "two items are there"),
    }
    assert!(rt; read_twins(&[7]).err() == Some(Fault::unnamed().later_by(8)));
    let mut few = Few::empty();
    few.push(7);
    few.push(8);
    let mut room = [0xff; 3];
    assert!(rt; write::<Cursor<'_>, Twins>((), &few, &mut room) == (16, 16));
    assert!(rt; room == [7, 8, 0xff]);
}
