// The lines of a file of test vectors: key, block and ciphertext, each in 32 hex digits.
ghost use Rattle.std.specs.Prelude.{◌≡◌, Some, length};
ghost use Rattle.std.specs.List.{after_first, before_first, position};
ghost use Rattle.vectors.specs.Lines.{compared, counted, has_blanks, is_comment, is_newline, tallied, tally_text, vector_of, verdict};

use crate::hex::read_block;
use cipher::{Block, Cipher};
use std::fmt;

#[derive(Clone, Copy)]
pub struct Vector {
    key: Block,
    block: Block,
    answer: Block,
}

#[derive(Clone, Copy)]
pub enum Verdict {
    Comment,
    Agrees,
    Differs,
    Malformed,
}

fn is_comment(line: &[u8]) -> bool
    ensures { result ≡ is_comment line.now }
{
    line.starts_with(b"#")
}

// Whether the blanks between the three blocks are there. The places in a line are numbers, as the file's form gives them.
fn has_blanks(line: &[u8]) -> bool
    requires { length line.now ≡ 98 }
    ensures { result ≡ has_blanks line.now }
{
    line[32] == b' ' && line[65] == b' '
}

fn read_vector(line: &[u8]) -> Option<Vector>
    ensures { result ≡ vector_of line.now }
{
    if line.len() != 98 || !has_blanks(line) {
        return None;
    }
    Some(Vector {
        key: read_block(&line[..32])?,
        block: read_block(&line[33..65])?,
        answer: read_block(&line[66..])?,
    })
}

fn compare(made: Block, answer: Block) -> Verdict
    ensures { result ≡ compared made answer }
{
    if made == answer {
        Verdict::Agrees
    } else {
        Verdict::Differs
    }
}

// What the line says of the cipher C.
pub fn judge<C: Cipher>(line: &[u8]) -> Verdict
    ensures { result ≡ verdict C.encrypted line.now }
{
    if is_comment(line) {
        return Verdict::Comment;
    }
    match read_vector(line) {
        Some(v) => compare(C::encrypt(v.key, v.block), v.answer),
        None => Verdict::Malformed,
    }
}

// How many lines came to each verdict. The counts stop at the largest number that fits.
#[derive(Clone, Copy, Default)]
pub struct Tally {
    pub agree: u64,
    pub differ: u64,
    pub malformed: u64,
}

impl Tally {
    // The tally with one line more. Comments do not count.
    pub fn with(self, v: Verdict) -> Self
        ensures { result ≡ counted self v }
    {
        match v {
            Verdict::Comment => self,
            Verdict::Agrees => Tally {
                agree: self.agree.saturating_add(1),
                ..self
            },
            Verdict::Differs => Tally {
                differ: self.differ.saturating_add(1),
                ..self
            },
            Verdict::Malformed => Tally {
                malformed: self.malformed.saturating_add(1),
                ..self
            },
        }
    }
}

impl fmt::Display for Tally {
    ghost output = { λ t. Some (tally_text t) };

    fn fmt<W: fmt::Write>(&self, f: &mut fmt::Formatter<W>) -> fmt::Result {
        let Tally {
            agree,
            differ,
            malformed,
        } = *self;
        write!(f, "{agree} agree, {differ} differ, {malformed} not in form")
    }
}

fn newline_at(text: &[u8]) -> Option<usize>
    ensures { result ≡ position is_newline text.now }
{
    text.iter().position(|b| *b == b'\n')
}

// The first line of a text, without the newline that ends it, and what follows. Cut so, since `split` gives an empty line after
// a newline at the end, and of what `split_inclusive` gives nothing is promised.
#[tactic(auto, using(crate::proofs::Scan::found, crate::proofs::Scan::missing))]
fn first_line(text: &[u8]) -> (&[u8], &[u8])
    ensures line { result.0.now ≡ before_first is_newline text.now }
    ensures rest { result.1.now ≡ after_first is_newline text.now }
{
    match newline_at(text) {
        Some(i) => (&text[..i], &text[i + 1..]),
        None => (text, &[]),
    }
}

// The tally of a whole text, line by line.
#[tactic(auto, using(crate::proofs::Scan::first_counts))]
pub fn tally_of<C: Cipher>(text: &[u8]) -> Tally
    ensures { result ≡ tallied C.encrypted text.now }
{
    let mut tally = Tally::default();
    let mut rest = text;
    while !rest.is_empty() {
        let (line, after) = first_line(rest);
        tally = tally.with(judge::<C>(line));
        rest = after;
    }
    tally
}
