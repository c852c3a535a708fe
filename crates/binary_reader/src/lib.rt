// Little-endian numbers that may be missing (bytes.rs), and a reader that refers to the run's slice (`BinaryReader`). A read or a
// skip that passes the end is refusal 1 of the reader itself, which names no part.
// Its methods are thin: each calls functions of the slice and the place, which the decoder's own functions take.
#![tactic(auto)]

ghost use Rattle.std.specs.Prelude.{◌≡◌};
ghost use Rattle.parser.specs.Parser.{bytes, parse, word, skip, check_count, word_at};
ghost use Rattle.binary_reader.specs.Read.{width, outcome_of, reads, Moves};

use reader::{remaining, u8_at, u16_at, u32_at, u64_at};

// How many bytes a number has.
#[derive(Clone, Copy)]
pub enum Width {
    One,
    Two,
    Four,
    Eight,
}

// The reader's own refusal 1, which names no part.
#[derive(Clone, Copy)]
pub struct RanOut;

impl Width {
    fn bytes(self) -> u64
        ensures { result ≡ width self }
    {
        match self {
            Width::One => 1,
            Width::Two => 2,
            Width::Four => 4,
            Width::Eight => 8,
        }
    }
}

// The number at a place, where a byte after the end counts as 0.
fn number_at(run: &[u8], at: u64, size: Width) -> u64
    ensures { result ≡ word_at run.now at (width size) }
{
    match size {
        Width::One => u8_at(run, at) as u64,
        Width::Two => u16_at(run, at) as u64,
        Width::Four => u32_at(run, at) as u64,
        Width::Eight => u64_at(run, at),
    }
}

// The number of so many bytes at a place of a run.
#[tactic(auto, unfolding(parser::specs::Parser::parse))]
pub fn read_at(run: &[u8], at: u64, size: Width) -> Result<u64, RanOut>
    ensures { outcome_of result ≡ reads (parse (word (width size)) run.now at) }
{
    if size.bytes() <= remaining(run, at) {
        return Ok(number_at(run, at, size));
    }
    Err(RanOut)
}

// `read_u32_le` and `read_f64_le` of bytes.rs; an f64 is handed out by its bits.
pub fn read_u32_le(data: &[u8], offset: u64) -> Result<u64, RanOut>
    ensures { outcome_of result ≡ reads (parse (word 4) «data».now offset) }
{
    read_at(data, offset, Width::Four)
}

pub fn read_f64_le(data: &[u8], offset: u64) -> Result<u64, RanOut>
    ensures { outcome_of result ≡ reads (parse (word 8) «data».now offset) }
{
    read_at(data, offset, Width::Eight)
}

// Whether n bytes can be passed over at a place.
#[tactic(auto, unfolding(parser::specs::Parser::parse))]
pub fn skip_at(run: &[u8], at: u64, n: u64) -> Result<(), RanOut>
    ensures { outcome_of result ≡ reads (parse (skip n) run.now at) }
{
    if n <= remaining(run, at) {
        return Ok(());
    }
    Err(RanOut)
}

// Whether n records of so many bytes can stand at a place. Their product may pass 64 bits, so it is not formed.
#[tactic(auto, unfolding(parser::specs::Parser::parse))]
pub fn check_count_at(run: &[u8], at: u64, n: u64, size: u64) -> Result<(), RanOut>
    ensures { outcome_of result ≡ reads (parse (check_count n size) run.now at) }
{
    if n == 0 {
        return Ok(());
    }
    if size <= remaining(run, at) / n {
        return Ok(());
    }
    Err(RanOut)
}

// The run's slice and a place in it.
#[derive(Clone, Copy)]
pub struct BinaryReader<'a> {
    pub bytes: &'a [u8],
    pub place: u64,
}

impl<'a> BinaryReader<'a> {
    pub fn new(bytes: &'a [u8], place: u64) -> BinaryReader<'a>
        ensures { (result.bytes ≡ bytes.entry) × (result.place ≡ place) }
    {
        BinaryReader { bytes, place }
    }

    pub fn position(&self) -> u64
        ensures { result ≡ self.now.place }
    {
        self.place
    }

    // The number at the reader's place, and the reader goes on after it. Where it ran out the reader stays.
    #[tactic(auto, unfolding(parser::specs::Parser::parse))]
    pub fn read_word(&mut self, size: Width) -> Result<u64, RanOut>
        ensures { Moves (word (width size)) self.old (outcome_of result) self.new }
    {
        let number = read_at(self.bytes, self.place, size)?;
        self.place = self.place + size.bytes();
        Ok(number)
    }

    // The reader goes on after n bytes.
    #[tactic(auto, unfolding(parser::specs::Parser::parse))]
    pub fn skip(&mut self, n: u64) -> Result<(), RanOut>
        ensures { Moves (skip n) self.old (outcome_of result) self.new }
    {
        skip_at(self.bytes, self.place, n)?;
        self.place = self.place + n;
        Ok(())
    }

    // Whether n records of so many bytes are left.
    pub fn check_count(&self, n: u64, size: u64) -> Result<(), RanOut>
        ensures { outcome_of result ≡ reads (parse (check_count n size) self.now.bytes.now self.now.place) }
    {
        check_count_at(self.bytes, self.place, n, size)
    }
}

// A number through a reader, for a caller that has a slice and a place.
pub fn word_at(run: &[u8], place: u64, size: Width) -> Result<u64, RanOut>
    ensures { outcome_of result ≡ reads (parse (word (width size)) run.now place) }
{
    BinaryReader::new(run, place).read_word(size)
}
