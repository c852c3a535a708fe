// The lines of the listing program, at the front of a lent slice. Each public function answers how many bytes it wrote, or
// refusal 8 where the slice does not hold them all.
#![tactic(auto)]

ghost use Rattle.std.specs.Prelude.{◌≡◌, [], ◌∷◌, ◌++◌, ◌^◌, ◌<◌, min, leb, length};
ghost use Rattle.lists.specs.Left.{LeftList};
ghost use Rattle.refusal.specs.Number.{number as number_of, carried};
ghost use Rattle.text.specs.Text.{ascii};
ghost use Rattle.listing_lines.specs.Decimal.{digit};
ghost use Rattle.listing_lines.specs.Lines.{decimal, hexadecimal, line, mass_text, bits_text, part_in, tray_line, refusal_line, scan_lines};
ghost use Rattle.listing_lines.specs.Internal.{Appends};

use float_bits::bits_of_f64;
use float_ten_thousandths::ten_thousandths;
use refusal::Refusal;
use text::write;

// Every `append` function writes from a place on and answers the place after what it wrote, where the next one goes on. Who
// calls it has judged the room: nothing is written after the slice's end, and what comes back then says nothing. There is no heap here, and
// a struct of slice and place would need a clause in each method that it still refers to the slice.
fn append(byte: u8, at: usize, out: &mut [u8]) -> usize
    ensures { Appends (byte ∷ []) at out.old result out.new }
{
    if at < out.len() {
        out[at] = byte;
        at + 1
    } else {
        at
    }
}

// A digit below 16, in lower case.
fn digit(d: u64) -> u8
    requires { d < 16 }
    ensures { result ≡ digit d }
{
    let digits = b"0123456789abcdef";
    digits[d as usize]
}

#[tactic(auto, using(crate::proofs::Digits::decimals))]
fn append_decimal(n: u64, at: usize, out: &mut [u8]) -> usize
    ensures { Appends (decimal n) at out.old result out.new }
{
    if n < 10 {
        return append(digit(n), at, out);
    }
    let last = append_decimal(n / 10, at, out);
    append(digit(n % 10), last, out)
}

// The last `digits` hexadecimal digits of n.
fn append_hexadecimal(digits: u32, n: u64, at: usize, out: &mut [u8]) -> usize
    ensures { Appends (hexadecimal digits n) at out.old result out.new }
{
    if digits == 0 {
        return at;
    }
    let last = append_hexadecimal(digits - 1, n / 16, at, out);
    append(digit(n % 16), last, out)
}

// A space, and a number in decimal.
fn append_number(n: u64, at: usize, out: &mut [u8]) -> usize
    ensures { Appends (ascii " " ++ decimal n) at out.old result out.new }
{
    let next = append(b' ', at, out);
    append_decimal(n, next, out)
}

// A line of a mark and two numbers.
fn append_two(mark: u8, a: u64, b: u64, out: &mut [u8]) -> usize
    ensures { Appends (line ((mark ∷ []) ∷ decimal a ∷ decimal b ∷ [])) 0 out.old result out.new }
{
    let start = append(mark, 0, out);
    let first = append_number(a, start, out);
    let second = append_number(b, first, out);
    append(b'\n', second, out)
}

// A line of a mark and three numbers.
fn append_three(mark: u8, a: u64, b: u64, c: u64, out: &mut [u8]) -> usize
    ensures { Appends (line ((mark ∷ []) ∷ decimal a ∷ decimal b ∷ decimal c ∷ [])) 0 out.old result out.new }
{
    let start = append(mark, 0, out);
    let first = append_number(a, start, out);
    let second = append_number(b, first, out);
    let third = append_number(c, second, out);
    append(b'\n', third, out)
}

// `T version count`. No line of numbers is longer than 64 bytes.
pub fn write_tray_line(version: u32, scans: u32, out: &mut [u8]) -> Result<u64, Refusal>
    ensures { LeftList (tray_line version scans) out.old result out.new }
{
    let mut text = [0u8; 64];
    let n = append_two(b'T', version as u64, scans as u64, &mut text);
    write(&text[..n], out)
}

// The part of a refusal 1, and 0 of others.
fn part_of(refusal: Refusal) -> u64
    ensures { result ≡ part_in (number_of refusal) (carried refusal) }
{
    let Refusal::Short(part) = refusal else {
        return 0;
    };
    part.number()
}

// `X number refusal part`
pub fn write_refusal_line(number: u32, refusal: Refusal, out: &mut [u8]) -> Result<u64, Refusal>
    ensures { LeftList (refusal_line number refusal) out.old result out.new }
{
    let mut text = [0u8; 64];
    let n = append_three(
        b'X',
        number as u64,
        refusal.number(),
        part_of(refusal),
        &mut text,
    );
    write(&text[..n], out)
}

// An m/z in ten-thousandths, or `-` where it has none.
fn append_mass(mz: f64, at: usize, out: &mut [u8]) -> usize
    ensures { Appends (mass_text mz) at out.old result out.new }
{
    match ten_thousandths(mz) {
        Ok(n) => append_decimal(n, at, out),
        Err(_) => append(b'-', at, out),
    }
}

// The line of a pair.
fn append_pair(mz: f64, intensity: f64, at: usize, out: &mut [u8]) -> usize
    ensures { Appends (line (mass_text mz ∷ bits_text intensity ∷ [])) at out.old result out.new }
{
    let space = append_mass(mz, at, out);
    let next = append(b' ', space, out);
    let end = append_hexadecimal(16, bits_of_f64(intensity), next, out);
    append(b'\n', end, out)
}

// As many pairs as both lists have.
fn pair_count(mz: &[f64], intensity: &[f64]) -> usize
    ensures { result ≡ min (length mz.now) (length intensity.now) }
{
    mz.len().min(intensity.len())
}

// The lines of a scan.
fn append_scan(
    number: u32,
    coefficients: u64,
    mz: &[f64],
    intensity: &[f64],
    out: &mut [u8],
) -> usize
    ensures { Appends (scan_lines number coefficients mz.now intensity.now) 0 out.old result out.new }
{
    let pairs = pair_count(mz, intensity);
    let mut at = append_three(b'S', number as u64, pairs as u64, coefficients, out);
    for i in 0..pairs {
        at = append_pair(mz[i], intensity[i], at, out);
    }
    at
}

// How long a mass is: at most 9 bytes.
fn mass_size(mz: f64) -> usize
    ensures { result ≡ length (mass_text mz) }
{
    let mut text = [0u8; 9];
    append_mass(mz, 0, &mut text)
}

// Whether the lines of a scan fit into so many bytes. Without the mass, a pair's line has 18.
fn scan_fits(number: u32, coefficients: u64, mz: &[f64], intensity: &[f64], room: usize) -> bool
    requires { room < 2 ^ 63 }
    ensures { result ≡ leb (length (scan_lines number coefficients mz.now intensity.now)) room }
{
    let pairs = pair_count(mz, intensity);
    let mut text = [0u8; 64];
    let mut size = append_three(b'S', number as u64, pairs as u64, coefficients, &mut text);
    for &m in &mz[..pairs] {
        if size > room {
            return false;
        }
        size = size + mass_size(m) + 18;
    }
    size <= room
}

// `S number pairs coefficients`, and a line for each pair, as far as both slices go.
pub fn write_scan_lines(
    number: u32,
    coefficients: u64,
    mz: &[f64],
    intensity: &[f64],
    out: &mut [u8],
) -> Result<u64, Refusal>
    ensures { LeftList (scan_lines number coefficients mz.now intensity.now) out.old result out.new }
{
    if scan_fits(number, coefficients, mz, intensity, out.len()) {
        Ok(append_scan(number, coefficients, mz, intensity, out) as u64)
    } else {
        Err(Refusal::NoRoom)
    }
}
