// Words and numbers as bytes, the lowest byte first: read out of a byte string, and written on a page.
#![tactic(auto)]

ghost use Rattle.std.specs.Prelude.{◌≡◌, ◌+◌, ◌*◌, ◌≤◌, ◌<◌, length};
ghost use Rattle.std.proofs.lemmas.List.Edits.{sets};
ghost use Rattle.std.specs.Float.{binary32};
ghost use Rattle.std.specs.Float.Ieee.{of_bits};
ghost use Rattle.words.specs.Bytes.{word, words_from, low_bytes, number_bytes, word_bytes};

use std::num::f32_from_bits_with_nan;

// The word at an index: four bytes, the lowest first. By their places: the library cuts a slice that is only read into no arrays of four.
pub fn word(bytes: &[u8], i: usize) -> u32
    requires { 4 * i + 4 ≤ length bytes.now }
    ensures { result ≡ word bytes.now i }
{
    let at = 4 * i;
    u32::from_le_bytes([bytes[at], bytes[at + 1], bytes[at + 2], bytes[at + 3]])
}

// Fills a list of words with the first words of the bytes.
pub fn read_words(bytes: &[u8], words: &mut [u32])
    requires { 4 * length words.old ≤ length bytes.now }
    ensures { words.new ≡ words_from bytes.now 0 (length words.old) }
{
    for (i, w) in words.iter_mut().enumerate() {
        *w = word(bytes, i);
    }
}

// The f32 with these bits. A pattern of a NaN, one above infinity's when the sign is cut off, gives the NaN that 0 / 0 is. The
// library's call, under the name that the callers' contracts cite.
pub fn float(bits: u32) -> f32
    ensures { result ≡ of_bits binary32 bits }
{
    f32_from_bits_with_nan(bits)
}

// Writes numbers from the page's start, eight bytes each: the page's later bytes stay. For words there is a second function, since
// `to_le_bytes` is each type's own and no trait's.
pub fn put_numbers(page: &mut [u8], numbers: &[u64])
    requires { 8 * length numbers.now ≤ length page.old }
    ensures { page.new ≡ sets page.old 0 (number_bytes numbers.now) }
{
    for (i, n) in numbers.iter().enumerate() {
        page[8 * i..8 * i + 8].copy_from_slice(&n.to_le_bytes());
    }
}

// Writes words from an index of the page on, four bytes each: the page's other bytes stay.
pub fn put_words(page: &mut [u8], at: usize, words: &[u32])
    requires { at + 4 * length words.now ≤ length page.old }
    ensures { page.new ≡ sets page.old at (word_bytes words.now) }
{
    for (i, w) in words.iter().enumerate() {
        let start = at + 4 * i;
        page[start..start + 4].copy_from_slice(&w.to_le_bytes());
    }
}

// Copies entries into a list, from an index on: the others stay. A loop, since `copy_from_slice` of a length that is not known when it
// is compiled calls `memmove`.
fn copy_in<T: Copy>(list: &mut [T], at: usize, entries: &[T])
    requires { at + length entries.now ≤ length list.old }
    ensures { list.new ≡ sets list.old at entries.now }
{
    for (i, entry) in entries.iter().enumerate() {
        list[at + i] = *entry;
    }
}

// Writes bytes from the page's start: the page's later bytes stay.
pub fn put_bytes(page: &mut [u8], bytes: &[u8])
    requires { length bytes.now ≤ length page.old }
    ensures { page.new ≡ sets page.old 0 bytes.now }
{
    copy_in(page, 0, bytes);
}

// Stores numbers in a list of numbers, from an index on: the others stay.
pub fn store(list: &mut [u64], at: usize, numbers: &[u64])
    requires { at + length numbers.now ≤ length list.old }
    ensures { list.new ≡ sets list.old at numbers.now }
{
    copy_in(list, at, numbers);
}
