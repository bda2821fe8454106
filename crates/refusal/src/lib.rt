// Why calls refuse: one enum for the whole library, with a number and a sentence for each case.
#![tactic(auto)]

ghost use Rattle.std.specs.Prelude.{◌≡◌, Some};
ghost use Rattle.refusal.specs.Numbers.{code};
ghost use Rattle.refusal.specs.Words.{sentence};
ghost use Rattle.refusal.specs.declared.Refusal.{Refusal};

use std::error::Error;
use std::fmt;

#[derive(Clone, Copy, Debug, PartialEq, Eq, Hash)]
pub enum Refusal {
    // From the input.
    Reversed = 1,
    EmptySpan = 2,
    SpanPastEnd = 3,
    SpanNotAbove = 4,
    NoSpans = 5,
    TooManySpans = 6,
    TooManyRows = 7,
    Height = 8,
    FanOut = 9,
    Capacity = 10,
    TooFewCells = 11,
    Heading = 12,
    TextLength = 13,
    RowForm = 14,
    RowPlace = 15,
    RowOrder = 16,
    RowHalves = 17,
    ShortOutput = 18,
    ShortScratch = 19,
    Step = 20,
    Weight = 21,
    // From the state.
    Full = 31,
    Beyond = 32,
    NoKeyBefore = 33,
    NoKeyAfter = 34,
    NothingLeft = 35,
    KeyInNeither = 36,
}

impl Refusal {
    // The number by which documents, programs and other languages know the refusal.
    pub fn number(self) -> u32
        ensures is { result ≡ code self }
        ensures tells { (other : Refusal) → code other ≡ result → other ≡ self }
    {
        self as u32
    }

    // What went wrong and what to do, for whoever reads the answer.
    pub fn words(self) -> &'static str
        ensures { result.now ≡ sentence self }
    {
        match self {
            Refusal::Reversed => "the span runs backward: give the lower number first",
            Refusal::EmptySpan => "the span names no key: its end must lie above its start",
            Refusal::SpanPastEnd => {
                "the span passes the last key: its end may be at most 2 to the power of the height"
            }
            Refusal::SpanNotAbove => {
                "the spans touch or go back: each must start above the end of the one before it"
            }
            Refusal::NoSpans => "no span was given: name at least one",
            Refusal::TooManySpans => "too many spans: give at most 16",
            Refusal::TooManyRows => {
                "the grant would need over 128 rows: ask for fewer or simpler spans"
            }
            Refusal::Height => "the height is out of range: take one from 1 to 32",
            Refusal::FanOut => "the fan-out is out of range: take one from 2 to 64",
            Refusal::Capacity => "the capacity is out of range: take one from 1 to 1048576",
            Refusal::TooFewCells => {
                "there are fewer cells than the tree needs: give more cells or lower the capacity"
            }
            Refusal::Heading => {
                "the heading is not in form: it holds PASS, a height from 1 to 32 and a row count from 1 to 128"
            }
            Refusal::TextLength => {
                "the text has the wrong length: it is 12 bytes and 57 for each row"
            }
            Refusal::RowForm => {
                "a row is not in form: it holds four right-justified numbers that fit their fields"
            }
            Refusal::RowPlace => "a row lies outside the tree: check its level and its index",
            Refusal::RowOrder => {
                "a row begins before the one before it ends: put the rows in rising order"
            }
            Refusal::RowHalves => "two rows are the halves of one node: write that node as one row",
            Refusal::ShortOutput => "the output has too few bytes: give a longer one",
            Refusal::ShortScratch => "the scratch memory is too short: give at least 66 words",
            Refusal::Step => "the step is out of range: take one from 1 to 65536",
            Refusal::Weight => "the parcel is too heavy: at most 2147483647 grams can be entered",
            Refusal::Full => "the store is full: begin a new epoch on a new store",
            Refusal::Beyond => {
                "the span passes the last line: end it at the number of lines or before"
            }
            Refusal::NoKeyBefore => {
                "the key before the first line is missing: ask for a source that has it"
            }
            Refusal::NoKeyAfter => {
                "the key after the last line is missing: ask for a source that has it"
            }
            Refusal::NothingLeft => {
                "the grant has no key in the span: narrow it to a span that it has keys in"
            }
            Refusal::KeyInNeither => "neither grant has the key: ask for a grant that covers it",
        }
    }
}

impl fmt::Display for Refusal {
    ghost output = { λ e. Some (sentence e) };

    fn fmt<W: fmt::Write>(&self, f: &mut fmt::Formatter<W>) -> fmt::Result {
        f.write_str(self.words())
    }
}

impl Error for Refusal {}
