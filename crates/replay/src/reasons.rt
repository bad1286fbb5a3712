// Why a line is no call, told by a line on standard error: standard output has the answers alone, which programs compare.
use crate::say::Out;
use lines::words;
use std::io;

// A text that ends in a quotation mark, a word as it stands in the line, and the closing mark.
fn quoted(before: &[u8], s: &[u8], n: usize, out: &mut Out) {
    out.text(before);
    out.text(words::word(s, n));
    out.text(b"\"");
}

// How many words the line has; they are not counted where one is empty.
fn many(count: usize, out: &mut Out) {
    match count {
        0 => out.text(b" with an empty word"),
        1 => out.text(b" of 1 word"),
        _ => {
            out.labelled(b" of ", count as u64);
            out.text(b" words");
        },
    }
}

// The reason itself. Places count from 0, words from 1 for who reads it.
fn why(s: &[u8], word: usize, out: &mut Out) {
    if word == 0 {
        quoted(b": no call \"", s, 0, out);
        many(words::count(s), out);
    } else {
        out.labelled(b": word ", (word as u64).saturating_add(1));
        quoted(b" of \"", s, 0, out);
        quoted(b" cannot be \"", s, word, out);
    }
}

// A line that is no call, by its number and the place of the word that cannot stand there, 0 for the name's.
pub fn no_call(err: &impl Print, number: u64, s: &[u8], word: usize) -> io::Result<()> {
    let mut out = Out::new();
    out.labelled(b"line ", number);
    why(s, word, &mut out);
    out.send(err)
}

// A line that the row does not hold.
pub fn too_long(err: &impl Print, number: u64) -> io::Result<()> {
    let mut out = Out::new();
    out.labelled(b"line ", number);
    out.text(b": more than 4,096 bytes");
    out.send(err)
}
