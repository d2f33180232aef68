//! Sums against a plain loop, and at their edges.
ghost use Rattle.std.specs.Prelude.{◌≡◌, ◌+◌, ◌≤◌, length};

use narc_bits::Steps;
use narc_sum::{fold, total};
use std::marker::Brand;
use std::process::Abort;
use std::sync::ledger::{Blank, Ledger};

/// The sum of octets, one by one.
fn plain_total(octets: &[u8]) -> u64 {
    let mut sum: u64 = 0;
    for (i, octet) in octets.iter().enumerate() {
        let weight = if i % 2 == 0 { 256 } else { 1 };
        sum = sum.wrapping_add(*octet as u64 * weight);
    }
    sum
}

/// Octets that differ, 255 among them.
fn many_octets() -> [u8; 134] {
    let mut octets = [255; 134];
    for i in 1..134 {
        octets[i] = (i * 89 % 256) as u8;
    }
    octets
}

#[test]
fn a_total_is_that_of_a_plain_loop(rt: HostRuntime) {
    total_every_part::<Brand>(&rt, Blank::new(1));
}

fn total_every_part<L: Ledger>(rt: &impl Abort, blank: Blank)
    requires name { blank.name ≡ L.name }
    requires parts { blank.parts ≡ L.parts }
    requires one { blank.parts ≡ 1 }
{
    let mut steps = Steps::<L>::new(blank);
    let octets = many_octets();
    for start in 0..34 {
        for count in 0..101 {
            let part = &octets[start..start + count];
            assert!(rt; total(part, &mut steps) == plain_total(part));
        }
    }
}

#[test]
fn totals_of_no_octets_and_of_many_are_their_words(rt: HostRuntime) {
    total_few_and_many::<Brand>(&rt, Blank::new(1));
}

fn total_few_and_many<L: Ledger>(rt: &impl Abort, blank: Blank)
    requires name { blank.name ≡ L.name }
    requires parts { blank.parts ≡ L.parts }
    requires one { blank.parts ≡ 1 }
{
    let mut steps = Steps::<L>::new(blank);
    let many = [255; 65];
    assert!(rt; total(&many[..0], &mut steps) == 0);
    assert!(rt; total(&[1, 2, 3], &mut steps) == 0x0102 + 0x0300);
    assert!(rt; total(&many[..64], &mut steps) == 32 * 65535);
    assert!(rt; total(&many, &mut steps) == 32 * 65535 + 65280);
}

#[test]
fn totals_are_folded(rt: HostRuntime) {
    assert!(rt; fold(0) == 0);
    assert!(rt; fold(0x0402) == 0x0402);
    assert!(rt; fold(32 * 65535) == 65535);
    assert!(rt; fold(32 * 65535 + 65280) == 65280);
}
