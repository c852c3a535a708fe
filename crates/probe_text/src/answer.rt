// The text of answers.
ghost use Rattle.std.specs.Prelude.{◌≡◌, ℕ, ◌<◌, ◌≤◌, ◌^◌, ◌++◌, ◌∷◌, ◌+◌, ◌*◌, [], List, length, take, OnOk, IsUtf8, MatchOption, false, string_bytes, codes, decimal};
ghost use Rattle.std.specs.Int.{from_bool};
ghost use Rattle.std.specs.Fmt.{digit_glyph};
ghost use Rattle.probe_text.specs.Answers.{bytes_field, count as count_of, elements, hex_bytes, hex_digits, name as name_of, refused as refused_of};

use crate::element::Element;
use crate::error::ProbeError;
use refusal::Refusal;
use std::alloc::{AllocError, Global};
use std::marker::Model;
use std::mem;

// A digit below 16.
fn glyph(digit: u8) -> u8
    requires { digit < 16 }
    ensures { result ≡ digit_glyph false digit }
{
    if digit < 10 {
        b'0' + digit
    } else {
        b'a' + (digit - 10)
    }
}

// Hexadecimal digits are most of what is printed, and `write!` takes many times as long.
fn put_byte(bytes: &mut Vec<u8>, byte: u8) -> Result<(), AllocError>
    ensures { OnOk result (bytes.new.items ≡ bytes.old.items ++ hex_digits 2 byte) }
{
    bytes.push(glyph(byte / 16))?;
    bytes.push(glyph(byte % 16))?;
    Ok(())
}

fn put_decimal(bytes: &mut Vec<u8>, n: u64) -> Result<(), AllocError>
    ensures { OnOk result (bytes.new.items ≡ bytes.old.items ++ decimal n) }
{
    // Codes and flags are most of the numbers.
    if n < 10 {
        return Ok(bytes.push(b'0' + n as u8)?);
    }
    let mut digits = [0u8; 20];
    let count = io::decimal(n, &mut digits);
    for &digit in &digits[..count] {
        bytes.push(digit)?;
    }
    Ok(())
}

// How many bytes a row has: room for eight elements of the most digits.
const ROW: usize = 136;

// A space and the digits of a number at a place of a row, the last digit first.
fn put_at(row: &mut [u8], at: usize, n: u64, width: usize)
    requires room { at + width < length row.old }
    requires digits { (0 < width) × (width ≤ 16) }
    requires fits { n < 16 ^ width }
    ensures len { length row.new ≡ length row.old }
    ensures text { take (at + width + 1) row.new ≡ take at row.old ++ 32 ∷ hex_digits width n }
{
    row[at] = b' ';
    let mut rest = n;
    for left in (0..width).rev() {
        row[at + 1 + left] = glyph((rest % 16) as u8);
        rest /= 16;
    }
}

fn put_element<T: Element>(bytes: &mut Vec<u8>, x: T) -> Result<(), AllocError>
    ensures { OnOk result (bytes.new.items ≡ bytes.old.items ++ 32 ∷ hex_digits T.DIGITS (T.bits_of x)) }
{
    let mut row = [b' '; 17];
    put_at(&mut row, 0, x.bits(), T::DIGITS);
    Ok(bytes.extend_from_slice(&row[..=T::DIGITS])?)
}

fn fill_row<T: Element>(row: &mut [u8; ROW], xs: &[T])
    requires { (T.DIGITS + 1) * length xs.now ≤ ROW }
    ensures { take ((T.DIGITS + 1) * length xs.now) row.new ≡ elements T.DIGITS T.bits_of xs.now }
{
    for (i, &x) in xs.iter().enumerate() {
        put_at(row, (T::DIGITS + 1) * i, x.bits(), T::DIGITS);
    }
}

// A row after the other: to push each byte by itself takes several times as long.
fn put_elements<T: Element>(bytes: &mut Vec<u8>, xs: &[T]) -> Result<(), AllocError>
    ensures { OnOk result (bytes.new.items ≡ bytes.old.items ++ elements T.DIGITS T.bits_of xs.now) }
{
    let mut rest = xs;
    while !rest.is_empty() {
        let (part, others) = rest.split_at(rest.len().min(ROW / (T::DIGITS + 1)));
        let mut row = [b' '; ROW];
        fill_row(&mut row, part);
        bytes.extend_from_slice(&row[..(T::DIGITS + 1) * part.len()])?;
        rest = others;
    }
    Ok(())
}

fn put_bytes(bytes: &mut Vec<u8>, run: &[u8]) -> Result<(), AllocError>
    ensures { OnOk result (bytes.new.items ≡ bytes.old.items ++ hex_bytes run.now) }
{
    for &byte in run {
        put_byte(bytes, byte)?;
    }
    Ok(())
}

// The text of one line. What does not find memory is left out, and then the answer is not used.
#[derive(Drop)]
pub struct Answer {
    alloc: Global,
    text: String,
}

impl Model for Answer {
    ghost Value = { List ℕ };

    ghost view = { λ answer. string_bytes answer.text };
}

impl Answer {
    pub fn new(alloc: Global) -> Answer
        ensures { result ≡ [] }
    {
        Answer {
            alloc,
            text: String::new(alloc),
        }
    }

    pub fn as_str(&self) -> &str
        ensures { result.now ≡ self.now }
    {
        &self.text
    }

    pub fn clear(&mut self)
        ensures { self.new ≡ [] }
    {
        self.text.clear();
    }

    pub fn put(&mut self, text: &str) -> Result<(), ProbeError>
        ensures { OnOk result (self.new ≡ self.old ++ text.now) }
    {
        Ok(self.text.push_str(text)?)
    }

    // The text's bytes, of which nothing is left here.
    fn take(&mut self) -> Vec<u8>
        ensures items { result.items ≡ self.old }
        ensures text { IsUtf8 result.items }
    {
        mem::replace(&mut self.text, String::new(self.alloc)).into_bytes()
    }

    fn decimal(&mut self, n: u64) -> Result<(), ProbeError>
        ensures { OnOk result (self.new ≡ self.old ++ decimal n) }
    {
        let mut bytes = self.take();
        put_decimal(&mut bytes, n)?;
        self.text = unsafe { String::from_utf8_unchecked(bytes) };
        Ok(())
    }

    fn field(&mut self, n: u64) -> Result<(), ProbeError>
        ensures { OnOk result (self.new ≡ self.old ++ 32 ∷ decimal n) }
    {
        let mut bytes = self.take();
        bytes.push(b' ')?;
        put_decimal(&mut bytes, n)?;
        self.text = unsafe { String::from_utf8_unchecked(bytes) };
        Ok(())
    }

    // A number with no space before it.
    pub fn put_number<N: Into<u64> + Drop>(&mut self, value: N) -> Result<(), ProbeError>
        ensures { OnOk result ((n : ℕ) × N.converts value n × (self.new ≡ self.old ++ decimal n)) }
    {
        self.decimal(value.into())
    }

    // What is no request.
    pub fn malformed(&mut self) -> Result<(), ProbeError>
        ensures { OnOk result (self.new ≡ self.old ++ codes "?") }
    {
        self.put("?")
    }

    pub fn ok(&mut self) -> Result<(), ProbeError>
        ensures { OnOk result (self.new ≡ self.old ++ codes "ok") }
    {
        self.put("ok")
    }

    pub fn none(&mut self) -> Result<(), ProbeError>
        ensures { OnOk result (self.new ≡ self.old ++ codes "none") }
    {
        self.put("none")
    }

    // A field of an answer: a number, a flag or the bits of a number or float.
    pub fn number<N: Into<u64> + Drop>(&mut self, value: N) -> Result<(), ProbeError>
        ensures { OnOk result ((n : ℕ) × N.converts value n × (self.new ≡ self.old ++ 32 ∷ decimal n)) }
    {
        self.field(value.into())
    }

    pub fn flag(&mut self, value: bool) -> Result<(), ProbeError>
        ensures { OnOk result (self.new ≡ self.old ++ 32 ∷ decimal (from_bool value)) }
    {
        self.number(value)
    }

    pub fn bits<T: Element>(&mut self, x: T) -> Result<(), ProbeError>
        ensures { OnOk result (self.new ≡ self.old ++ 32 ∷ hex_digits T.DIGITS (T.bits_of x)) }
    {
        let mut bytes = self.take();
        put_element(&mut bytes, x)?;
        self.text = unsafe { String::from_utf8_unchecked(bytes) };
        Ok(())
    }

    pub fn ok_number<N: Into<u64> + Drop>(&mut self, value: N) -> Result<(), ProbeError>
        ensures { OnOk result ((n : ℕ) × N.converts value n × (self.new ≡ self.old ++ codes "ok " ++ decimal n)) }
    {
        self.ok()?;
        self.number(value)
    }

    // The answer of a function that may have none.
    pub fn option<N: Into<u64> + Drop>(&mut self, answer: Option<N>) -> Result<(), ProbeError>
        ensures { OnOk result (MatchOption answer (self.new ≡ self.old ++ codes "none") (λ value. (n : ℕ) × N.converts value n × (self.new ≡ self.old ++ codes "ok " ++ decimal n))) }
    {
        match answer {
            Some(value) => self.ok_number(value),
            None => self.none(),
        }
    }

    // A refusal by its number and what it carries.
    pub fn refused(&mut self, refusal: Refusal) -> Result<(), ProbeError>
        ensures { OnOk result (self.new ≡ self.old ++ refused_of refusal) }
    {
        self.put("refused")?;
        self.number(refusal.number())?;
        match refusal {
            Refusal::Short(part) => self.number(part.number()),
            Refusal::InvalidPrecursorMz { place, bits } => {
                self.number(place)?;
                self.bits(bits)
            }
            _ => Ok(()),
        }
    }

    // A count or a place.
    pub fn count(&mut self, answer: Result<u64, Refusal>) -> Result<(), ProbeError>
        ensures { OnOk result (self.new ≡ self.old ++ count_of answer) }
    {
        match answer {
            Ok(value) => self.ok_number(value),
            Err(refusal) => self.refused(refusal),
        }
    }

    // A field of bytes, as in a request.
    pub fn bytes(&mut self, run: &[u8]) -> Result<(), ProbeError>
        ensures { OnOk result (self.new ≡ self.old ++ bytes_field run.now) }
    {
        if run.is_empty() {
            return self.put(" -");
        }
        self.put(" ")?;
        let mut bytes = self.take();
        put_bytes(&mut bytes, run)?;
        self.text = unsafe { String::from_utf8_unchecked(bytes) };
        Ok(())
    }

    // A lent slice after the call.
    pub fn slice<T: Element>(&mut self, lent: &[T]) -> Result<(), ProbeError>
        ensures { OnOk result (self.new ≡ self.old ++ codes " |" ++ elements T.DIGITS T.bits_of lent.now) }
    {
        self.put(" |")?;
        let mut bytes = self.take();
        put_elements(&mut bytes, lent)?;
        self.text = unsafe { String::from_utf8_unchecked(bytes) };
        Ok(())
    }

    // What a name's function answered, and the slice that it was lent. The empty name stands for the Rust's `None`.
    pub fn name(&mut self, name: Result<u64, Refusal>, lent: &[u8]) -> Result<(), ProbeError>
        ensures { OnOk result (self.new ≡ self.old ++ name_of name ++ codes " |" ++ elements 2 (λ byte. byte) lent.now) }
    {
        match name {
            Ok(0) => self.none()?,
            Ok(count) => self.ok_number(count)?,
            Err(refusal) => self.refused(refusal)?,
        }
        self.slice(lent)
    }
}
