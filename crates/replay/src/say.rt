// What a line is written with: texts, numbers and bytes, each after what was said so far.
use answers::Answer;
use std::io;
use text::{decimal, put};

// A line as it grows. It is longer than any answer or reason, so that nothing is left off.
#[derive(Drop)]
pub struct Out {
    line: [u8; 16384],
    len: usize,
}

impl Out {
    pub fn new() -> Self {
        Out {
            line: [0u8; 16384],
            len: 0,
        }
    }

    pub fn is_empty(&self) -> bool {
        self.len == 0
    }

    pub fn text(&mut self, t: &[u8]) {
        self.len = put::bytes(&mut self.line, self.len, t).unwrap_or(self.len);
    }

    pub fn number(&mut self, n: u64) {
        self.len = decimal::write(&mut self.line, self.len, n).unwrap_or(self.len);
    }

    // A text and a number.
    pub fn labelled(&mut self, t: &[u8], n: u64) {
        self.text(t);
        self.number(n);
    }

    // A blank, and so many bytes of s from a place on, or "-" if there are none.
    pub fn bytes(&mut self, s: &[u8], from: usize, len: usize) {
        self.text(b" ");
        if s.len() < from || s.len() - from < len {
            return;
        }
        if len == 0 {
            self.text(b"-");
            return;
        }
        let part = &s[from..from + len];
        self.len = hexes::write(&mut self.line, self.len, part).unwrap_or(self.len);
    }

    // The answer of a call that tells a number, and none on refusal.
    pub fn told(&mut self, told: Result<u64, Answer>) {
        match told {
            Ok(n) => self.labelled(b"0 ", n),
            Err(answer) => self.refused(answer),
        }
    }

    // The answer of a writer, and the bytes that it wrote to the front of s.
    pub fn wrote(&mut self, wrote: Result<usize, Answer>, s: &[u8]) {
        match wrote {
            Ok(end) => {
                self.text(b"0");
                self.bytes(s, 0, end);
            },
            Err(answer) => self.refused(answer),
        }
    }

    // The answer that refuses a call, which then tells nothing.
    pub fn refused(&mut self, answer: Answer) {
        self.number(answer.number());
        self.text(b" -");
    }

    // Writes the line, with its newline, to standard output or standard error at once.
    pub fn send(&mut self, to: &impl Print) -> io::Result<()> {
        self.text(b"\n");
        to.write_all(front(&self.line, self.len))
    }
}

// The first bytes of a row, all if there are fewer.
pub fn front(row: &[u8], len: usize) -> &[u8] {
    &row[..len.min(row.len())]
}

// The front of an output, so many bytes of it: as many as there are at most.
pub fn room(output: &mut [u8], n: usize) -> &mut [u8] {
    let len = n.min(output.len());
    &mut output[..len]
}
