// Numbers written from tables. Each number of at most three digits is a word: its three digits and a byte behind them, which is a space in one table and a
// line's end in another. Its text is the end of its word, of a size that stands in a table of its own. So a line can be written from its end: each word, four
// bytes at once, over the place of what stands before it and is written after it. The bytes of a word are loaded before one is stored, so that they are
// moved at once.
ghost use Rattle.std.specs.Prelude.{◌≡◌, [], ◌∷◌, ◌++◌, ◌+◌, ◌≤◌, ◌<◌, length};
ghost use Rattle.rules.specs.Stream.{decimal};
ghost use Rattle.text.specs.Appended.{Appended};
ghost use Rattle.stream.specs.Words.{word_of, number_words, size_of, number_sizes, Before};

use crate::bytes::put_bytes;
use text::pieces::{put_decimal, put_word};

// The first number of four digits.
pub(crate) const THOUSAND: usize = 1_000;

const THOUSANDS: u32 = THOUSAND as u32;

// The bytes of a word.
const WORD: usize = 4;

// The bytes of a table of words.
const WORDS: usize = WORD * THOUSAND;

// The bytes behind a word.
pub(crate) const SPACE: u8 = b' ';

pub(crate) const LINE_END: u8 = b'\n';

// The words of the numbers of at most three digits, with one byte behind each.
#[derive(Drop)]
pub(crate) struct Words<const LAST: u8> {
    bytes: [u8; WORDS],
    ghost spelled: { bytes ≡ number_words LAST },
}

// The words of the numbers before a space and before a line's end, and the sizes of their texts.
#[derive(Drop)]
pub(crate) struct Tables {
    pub(crate) spaced: Words<SPACE>,
    pub(crate) ended: Words<LINE_END>,
    sizes: [u8; THOUSAND],
    ghost measured: { sizes ≡ number_sizes },
}

// The table of words with this byte behind each.
fn put_words(words: &mut [u8; WORDS], last: u8)
    ensures { words.new ≡ number_words last }
{
    for n in 0..THOUSAND {
        let hundreds = (n / 100 % 10) as u8 + b'0';
        let tens = (n / 10 % 10) as u8 + b'0';
        let ones = (n % 10) as u8 + b'0';
        put_bytes(words, WORD * n, &[hundreds, tens, ones, last]);
    }
}

// The bytes of a number's text with the byte behind it.
fn size_of(n: usize) -> u8
    requires { n < 1_000 }
    ensures { result ≡ size_of n }
{
    if n < 10 {
        return 2;
    }
    if n < 100 {
        return 3;
    }
    4
}

// The table of sizes.
fn put_sizes(sizes: &mut [u8; THOUSAND])
    ensures { sizes.new ≡ number_sizes }
{
    for (n, size) in sizes.iter_mut().enumerate() {
        *size = size_of(n);
    }
}

impl<const LAST: u8> Words<LAST> {
    // The word of a number of at most three digits.
    fn word(&self, n: usize) -> [u8; WORD]
        requires { n < 1_000 }
        ensures { result ≡ word_of LAST n }
    {
        let at = WORD * n;
        [
            self.bytes[at],
            self.bytes[at + 1],
            self.bytes[at + 2],
            self.bytes[at + 3],
        ]
    }

    // A number of at most three digits put before `end`, with the byte behind it: the four bytes of its word.
    pub(crate) fn put_before(&self, out: &mut [u8], end: usize, n: usize)
        requires { (n < 1_000) × (4 ≤ end) × (end ≤ length out.old) }
        ensures { Before out.old end out.new (decimal n ++ (LAST ∷ [])) }
    {
        put_bytes(out, end - WORD, &self.word(n));
    }

    // A number of at most three digits and the byte behind it.
    fn put_short(&self, out: &mut [u8], at: usize, n: usize) -> usize
        requires { (n < 1_000) × (at + 4 ≤ length out.old) }
        ensures text { Appended out.old at out.new result (decimal n ++ (LAST ∷ [])) }
        ensures ends { (at < result) × (result ≤ at + 4) }
    {
        if 99 < n {
            return put_bytes(out, at, &self.word(n));
        }
        if 9 < n {
            let [_, tens, ones, last] = self.word(n);
            return put_bytes(out, at, &[tens, ones, last]);
        }
        let [_, _, ones, last] = self.word(n);
        put_bytes(out, at, &[ones, last])
    }
}

impl Tables {
    pub(crate) fn new() -> Self {
        let mut spaced = [0u8; WORDS];
        put_words(&mut spaced, SPACE);
        let mut ended = [0u8; WORDS];
        put_words(&mut ended, LINE_END);
        let mut sizes = [0u8; THOUSAND];
        put_sizes(&mut sizes);
        Tables {
            spaced: Words { bytes: spaced },
            ended: Words { bytes: ended },
            sizes,
        }
    }

    // The size of a number's text with the byte behind it.
    pub(crate) fn size(&self, n: usize) -> usize
        requires { n < 1_000 }
        ensures { (result ≡ size_of n) × ((2 ≤ result) × (result ≤ 4)) }
    {
        self.sizes[n] as usize
    }

    // A number of at most six digits and a space: the word of the last three, over the space of the others.
    pub(crate) fn put_number(&self, out: &mut [u8], at: usize, n: u32) -> usize
        requires { (n < 1_000_000) × (at + 7 ≤ length out.old) }
        ensures { Appended out.old at out.new result (decimal n ++ (32 ∷ [])) × (result ≤ at + 7) }
    {
        if n < THOUSANDS {
            return self.spaced.put_short(out, at, n as usize);
        }
        let word = self.spaced.word((n % THOUSANDS) as usize);
        let end = self.spaced.put_short(out, at, (n / THOUSANDS) as usize);
        put_bytes(out, end - 1, &word)
    }

    // The number that ends a line, and the line's end.
    pub(crate) fn put_last(&self, out: &mut [u8], at: usize, n: usize) -> usize
        requires { at + 4 ≤ length out.old }
        ensures { Appended out.old at out.new result (decimal n ++ (10 ∷ [])) }
    {
        if THOUSAND <= n {
            let end = put_decimal(out, at, n as u64);
            return put_word(out, end, b"\n");
        }
        self.ended.put_short(out, at, n)
    }
}
