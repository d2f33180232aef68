//! Decimal texts, found in a table for the numbers that come most.
ghost use Rattle.std.specs.Prelude.{◌≡◌, ℕ, ◌<◌, ◌≤◌, [], decimal, length, slice_index_or};
ghost use Rattle.narc_text.specs.Texts.{IsText};

/// The texts of 0 to 255, in four octets each, of which the last is the text's length.
#[derive(Drop)]
pub(crate) struct Texts {
    texts: [[u8; 4]; 256],
    ghost each: { (n : ℕ) → n < 256 → IsText n (slice_index_or texts n []) },
}

/// The text of an octet, in four octets, of which the last is its length.
fn text_of(number: u8) -> [u8; 4]
    ensures { IsText number result }
{
    let number = u64::from(number);
    let width = width_of_four(number);
    let mut text = [0; 4];
    itoa::write_digits(number, &mut text, width);
    text[3] = width as u8;
    text
}

impl Texts {
    pub(crate) fn new() -> Texts {
        let mut texts = [[0; 4]; 256];
        for number in 0..256usize {
            texts[number] = text_of(number as u8);
        }
        Texts { texts }
    }

    /// The text of an octet, in four octets, of which the last is its length.
    #[inline(always)]
    pub(crate) fn get(&self, number: u8) -> [u8; 4]
        ensures { IsText number result }
    {
        self.texts[number as usize]
    }
}

/// How many digits a number has.
#[inline(always)]
fn width_of_four(number: u64) -> usize
    requires { number < 10000 }
    ensures value { result ≡ length (decimal number) }
    ensures bound { result ≤ 4 }
{
    if number < 100 {
        if number < 10 { 1 } else { 2 }
    } else if number < 1000 {
        3
    } else {
        4
    }
}

/// How many digits a number has.
#[inline(always)]
pub(crate) fn width_of_short(number: u16) -> usize
    ensures value { result ≡ length (decimal number) }
    ensures bound { result ≤ 5 }
{
    if number < 10_000 {
        width_of_four(u64::from(number))
    } else {
        5
    }
}

/// How many digits a number has.
#[inline(always)]
pub(crate) fn width_of(number: u64) -> usize
    ensures value { result ≡ length (decimal number) }
    ensures bound { result ≤ 20 }
{
    let mut width = 0;
    let mut rest = number;
    while rest >= 10_000 {
        rest /= 10_000;
        width += 4;
    }
    width + width_of_four(rest)
}
