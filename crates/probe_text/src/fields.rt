// The fields of a request line, which stand one space apart.
ghost use Rattle.std.specs.Prelude.{◌≡◌, ◌≤◌, ◌↔◌, IsOk, IsSome, IfOk, List, ℕ, length, map, from_bits};
ghost use Rattle.std.specs.Float.{binary64};
ghost use Rattle.std.specs.Char.{is_ascii_digit, is_ascii_uppercase};
ghost use Rattle.std.specs.Int.{from_bool};
ghost use Rattle.std.specs.List.{list_all, list_any, position_or_len};
ghost use mir.Syntax.{w16, w64};
ghost use Rattle.lists.specs.Written.{each};
ghost use Rattle.probe_text.specs.Fields.{is_space};

use crate::element::{Element, LONGEST};
use crate::error::ProbeError;
use crate::lent::lent;
use memchr::memchr;
use std::alloc::{AllocError, Global};
use std::str::FromStr;

// The most elements of a slice that are lent, and of a list; the most of a preamble.
pub const LENT: usize = 64;

pub const PREAMBLE: usize = 256;

fn all_digits(text: &str) -> bool
    ensures { result ≡ list_all is_ascii_digit text.now }
{
    text.bytes().all(|byte| byte.is_ascii_digit())
}

// Not by `any`, which stops at the first: without that the loop takes many bytes at once.
fn has_upper_case(text: &str) -> bool
    ensures { result ≡ list_any is_ascii_uppercase text.now }
{
    let mut found = false;
    for &byte in text.as_bytes() {
        found |= byte.is_ascii_uppercase();
    }
    found
}

// How many bytes are looked at one by one: most fields are shorter, and a search by vectors has its cost.
const NEAR: usize = 16;

// A call, so that the loop before it stays small.
#[inline(never)]
fn far_space(text: &[u8]) -> usize
    ensures value { result ≡ position_or_len is_space text.now }
    ensures bound { result ≤ length text.now }
{
    memchr(b' ', text).unwrap_or(text.len())
}

// Where the first space stands, or the text's length.
fn first_space(text: &[u8]) -> usize
    ensures value { result ≡ position_or_len is_space text.now }
    ensures bound { result ≤ length text.now }
{
    let near = text.len().min(NEAR);
    for i in 0..near {
        if text[i] == b' ' {
            return i;
        }
    }
    if near < NEAR {
        return near;
    }
    NEAR + far_space(&text[NEAR..])
}

// The floats of these bits.
fn floats(alloc: Global, bits: &[u64]) -> Result<Vec<f64>, AllocError>
    ensures { IfOk result (λ v. v.items ≡ map (from_bits binary64) bits.now) }
{
    bits.iter()
        .map(|bits| float_bits::f64_of_bits(*bits))
        .collect(alloc)
}

// What is left of a line: nothing once its last field was read. After an error more fields are not to be read.
#[derive(Clone, Copy)]
pub struct Fields<'a> {
    alloc: Global,
    pub rest: Option<&'a str>,
}

impl<'a> Fields<'a> {
    ghost use Rattle.probe_text.specs.Fields.{Reads, IsDigits, IsHexOf, IsListOf, IsNumber};

    pub fn new(alloc: Global, line: &'a str) -> Fields<'a>
        ensures { result.rest ≡ Some line.entry }
    {
        Fields {
            alloc,
            rest: Some(line),
        }
    }

    // The next field as it stands.
    pub fn text(&mut self) -> Result<&'a str, ProbeError>
        ensures reads { IfOk result (λ field. Reads self.old.rest field.now self.new.rest) }
        ensures succeeds { IsOk result ↔ IsSome self.old.rest }
    {
        let Some(rest) = self.rest else {
            return Err(ProbeError::Malformed);
        };
        let end = first_space(rest.as_bytes());
        if end == rest.len() {
            self.rest = None;
            return Ok(rest);
        }
        self.rest = Some(&rest[end + 1..]);
        Ok(&rest[..end])
    }

    // A decimal number of 1 to 20 digits that the type holds.
    pub fn number<T: FromStr>(&mut self) -> Result<T, ProbeError>
    where
        T::Err: Drop,
        ensures { IfOk result (λ x. (field : List ℕ) × Reads self.old.rest field self.new.rest × IsDigits field × T.from_str_gives field (Ok x)) }
    {
        let digits = self.text()?;
        if 20 < digits.len() || !all_digits(digits) {
            return Err(ProbeError::Malformed);
        }
        digits.parse().map_err(|_| ProbeError::Malformed)
    }

    pub fn at_most(&mut self, most: u64) -> Result<u64, ProbeError>
        ensures reads { IfOk result (λ n. (field : List ℕ) × Reads self.old.rest field self.new.rest × IsNumber field n) }
        ensures bound { IfOk result (λ n. n ≤ most) }
    {
        let n = self.number()?;
        if most < n {
            return Err(ProbeError::Malformed);
        }
        Ok(n)
    }

    pub fn flag(&mut self) -> Result<bool, ProbeError>
        ensures { IfOk result (λ value. (field : List ℕ) × Reads self.old.rest field self.new.rest × IsNumber field (from_bool value)) }
    {
        Ok(self.at_most(1)? == 1)
    }

    // Bytes in hexadecimal digits of lower case; `-` stands for none.
    pub fn bytes(&mut self) -> Result<Vec<u8>, ProbeError>
        ensures { IfOk result (λ v. (field : List ℕ) × Reads self.old.rest field self.new.rest × IsHexOf field v.items) }
    {
        let digits = self.text()?;
        if digits == "-" {
            return Ok(Vec::new(self.alloc));
        }
        if digits.is_empty() || has_upper_case(digits) {
            return Err(ProbeError::Malformed);
        }
        Ok(hex::decode(self.alloc, digits)?)
    }

    // No more than so many bytes.
    pub fn bytes_at_most(&mut self, most: usize) -> Result<Vec<u8>, ProbeError>
        ensures reads { IfOk result (λ v. (field : List ℕ) × Reads self.old.rest field self.new.rest × IsHexOf field v.items) }
        ensures bound { IfOk result (λ v. length v.items ≤ most) }
    {
        let bytes = self.bytes()?;
        if most < bytes.len() {
            return Err(ProbeError::Malformed);
        }
        Ok(bytes)
    }

    // A list of numbers by their little-endian bytes.
    pub fn u64s(&mut self) -> Result<Vec<u64>, ProbeError>
        ensures reads { IfOk result (λ v. (field : List ℕ) × Reads self.old.rest field self.new.rest × IsListOf w64 8 field v.items) }
        ensures bound { IfOk result (λ v. length v.items ≤ LENT) }
    {
        let bytes = self.bytes_at_most(8 * LENT)?;
        let (numbers, beyond) = bytes.as_chunks::<8>();
        if !beyond.is_empty() {
            return Err(ProbeError::Malformed);
        }
        Ok(
            numbers
                .iter()
                .map(|number| u64::from_le_bytes(*number))
                .collect(self.alloc)?,
        )
    }

    pub fn u16s(&mut self) -> Result<Vec<u16>, ProbeError>
        ensures reads { IfOk result (λ v. (field : List ℕ) × Reads self.old.rest field self.new.rest × IsListOf w16 2 field v.items) }
        ensures bound { IfOk result (λ v. length v.items ≤ LENT) }
    {
        let bytes = self.bytes_at_most(2 * LENT)?;
        let (numbers, beyond) = bytes.as_chunks::<2>();
        if !beyond.is_empty() {
            return Err(ProbeError::Malformed);
        }
        Ok(
            numbers
                .iter()
                .map(|number| u16::from_le_bytes(*number))
                .collect(self.alloc)?,
        )
    }

    // A list of floats by their bits.
    pub fn f64s(&mut self) -> Result<Vec<f64>, ProbeError>
        ensures reads { IfOk result (λ v. (field : List ℕ) × Reads self.old.rest field self.new.rest × (numbers : List ℕ) × IsListOf w64 8 field numbers × (v.items ≡ map (from_bits binary64) numbers)) }
        ensures bound { IfOk result (λ v. length v.items ≤ LENT) }
    {
        Ok(floats(self.alloc, &self.u64s()?)?)
    }

    // A lent length, and the slice that is lent.
    pub fn lent<T: Element>(&mut self, most: usize) -> Result<Vec<T>, ProbeError>
        ensures reads { IfOk result (λ v. (field : List ℕ) × Reads self.old.rest field self.new.rest × IsNumber field (length v.items)) }
        ensures bound { IfOk result (λ v. length v.items ≤ most) }
        ensures items { IfOk result (λ v. v.items ≡ each T.filler_at (length v.items)) }
    {
        let len: usize = self.number()?;
        if most.min(LONGEST) < len {
            return Err(ProbeError::Malformed);
        }
        Ok(lent(self.alloc, len)?)
    }

    // Whether all fields were read.
    pub fn end(&self) -> Result<(), ProbeError>
        ensures { IsOk result ↔ (self.now.rest ≡ None) }
    {
        match self.rest {
            None => Ok(()),
            Some(_) => Err(ProbeError::Malformed),
        }
    }
}
