// From a profile's bins to pairs of m/z and intensity (`freq_to_mz`, and the inner loop of `Profile::to_mz_intensity`, of
// scan_data.rs).
#![tactic(auto)]

ghost use Rattle.std.specs.Prelude.{◌≡◌, ◌+◌, ◌*◌, ◌≤◌, length};
ghost use Rattle.lists.specs.Left.{pairs_if_fit, LeftPairs};
ghost use Rattle.lists.specs.Written.{each, over};
ghost use Rattle.parser.specs.Parser.{f32_at};
ghost use Rattle.calibration.specs.Convert.{series, freq_to_mz, chunk_pairs};
ghost use Rattle.calibration.specs.Internal.{conversion_of, mz_by, chunk_bins, mz_on};

use float_bits::{f64_of_bits, widened};
use lists::fits;
use reader::{saturating_add, u32_at};
use refusal::Refusal;

// Where a profile's bins lie: the frequency of bin 0 and the distance to the next, as the bits of f64 numbers.
#[derive(Clone, Copy)]
pub struct Bins {
    pub first_value: u64,
    pub step: u64,
}

// What the number of coefficients says, with A, B and C. It is worked out once for all bins of a chunk. Two of four cases hold nothing,
// which no `Option` says.
#[derive(Clone, Copy)]
enum Conversion {
    // What is stored is m/z already (ion trap).
    None,
    // LTQ-FT and ICR.
    Frequency(f64, f64, f64),
    // Orbitrap.
    SquaredFrequency(f64, f64, f64),
    Unknown,
}

// What else a chunk's bins have in common, as numbers.
#[derive(Clone, Copy)]
struct ChunkBins {
    first_value: f64,
    step: f64,
    first_bin: f64,
    fudge: f64,
}

fn conversion_of(coefficients: &[u64]) -> Conversion
    ensures { result ≡ conversion_of coefficients.now }
{
    match coefficients.len() {
        0 => Conversion::None,
        4 => Conversion::Frequency(
            f64_of_bits(coefficients[1]),
            f64_of_bits(coefficients[2]),
            f64_of_bits(coefficients[3]),
        ),
        5 | 7 => Conversion::SquaredFrequency(
            f64_of_bits(coefficients[2]),
            f64_of_bits(coefficients[3]),
            f64_of_bits(coefficients[4]),
        ),
        _ => Conversion::Unknown,
    }
}

// A + B/g + C/g², each operation rounded.
fn series_at(a: f64, b: f64, c: f64, g: f64) -> f64
    ensures { result ≡ series a b c g }
{
    a + b / g + c / (g * g)
}

fn mz_by(conversion: Conversion, freq: f64) -> f64
    ensures { result ≡ mz_by conversion freq }
{
    if freq == 0.0 {
        return 0.0;
    }
    match conversion {
        Conversion::None => freq,
        Conversion::Frequency(a, b, c) => series_at(a, b, c, freq),
        Conversion::SquaredFrequency(a, b, c) => series_at(a, b, c, freq * freq),
        Conversion::Unknown => f64::NAN,
    }
}

// The m/z of a frequency. The coefficients are the bits of f64 numbers.
pub fn freq_to_mz(freq: f64, coefficients: &[u64]) -> f64
    ensures { result ≡ freq_to_mz freq coefficients.now }
{
    mz_by(conversion_of(coefficients), freq)
}

fn chunk_bins(bins: Bins, first_bin: u32, fudge: u32) -> ChunkBins
    ensures { result ≡ chunk_bins bins first_bin fudge }
{
    let bin = first_bin as f64;
    ChunkBins {
        first_value: f64_of_bits(bins.first_value),
        step: f64_of_bits(bins.step),
        first_bin: bin,
        fudge: widened(fudge),
    }
}

// The m/z of a chunk's i-th bin. The fudge corrects the m/z, not the frequency.
fn bin_to_mz(bins: ChunkBins, conversion: Conversion, i: u64) -> f64
    ensures { result ≡ mz_on bins conversion i }
{
    let fudge = bins.fudge;
    let index = std::num::nearest_u64_to_f64(i);
    let freq = bins.first_value + (bins.first_bin + index) * bins.step;
    mz_by(conversion, freq) + fudge
}

// The pairs, where both slices hold them.
fn write_pairs(
    run: &[u8],
    at: u64,
    n: u64,
    bins: ChunkBins,
    conversion: Conversion,
    mz: &mut [f64],
    intensity: &mut [f64],
)
    requires n_in_bounds { n ≤ length mz.old }
    requires n_in_bounds_2 { n ≤ length intensity.old }
    ensures mz_after { mz.new ≡ over (each (mz_on bins conversion) n) mz.old }
    ensures intensity_after { intensity.new ≡ over (each (λ k. f32_at run.now (at + k * 4)) n) intensity.old }
{
    let mut place = at;
    for i in 0..n as usize {
        mz[i] = bin_to_mz(bins, conversion, i as u64);
        intensity[i] = widened(u32_at(run, place));
        place = saturating_add(place, 4);
    }
}

// The n pairs of the chunk whose signal starts at a place of the run, over the fronts of both slices. `fudge` has the bits
// of an f32, 0 for a chunk without one.
pub fn write_chunk(
    run: &[u8],
    at: u64,
    n: u64,
    first_bin: u32,
    fudge: u32,
    bins: Bins,
    coefficients: &[u64],
    mz: &mut [f64],
    intensity: &mut [f64],
) -> Result<u64, Refusal>
    ensures { LeftPairs (λ m i. pairs_if_fit m i (chunk_pairs bins first_bin fudge coefficients.now run.now at n)) mz.old intensity.old result mz.new intensity.new }
{
    if fits([n, n], [mz.len(), intensity.len()]) {
        write_pairs(
            run,
            at,
            n,
            chunk_bins(bins, first_bin, fudge),
            conversion_of(coefficients),
            mz,
            intensity,
        );
        return Ok(n);
    }
    Err(Refusal::NoRoom)
}
