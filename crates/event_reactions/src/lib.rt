// The precursor reactions in the body of a scan event. From version 66 on (`read_v66` of scan_event.rs) they are looked for: a
// count word and records of 32 bytes, or, where these give none, a record that has no count word.
#![tactic(auto)]

ghost use Rattle.std.specs.Prelude.{◌≡◌, ◌*◌, ◌≤◌, max, length};
ghost use Rattle.lists.specs.Left.{firsts, seconds, pairs_if_fit, LeftPairs};
ghost use Rattle.lists.specs.Written.{over, fitting};
ghost use Rattle.event_reactions.specs.Reactions.{acceptable, kept, record_count, plausible_precursor, has_uncounted, reactions_in, in_source};

use float_bits::{f64_of_bits, is_finite64};
use lists::fits;
use reader::{copy, remaining, saturating_add, u32_at, u64_at};
use refusal::Refusal;

// Where the reactions of an event stand in its body.
#[derive(Clone, Copy)]
pub enum Source {
    // So many records from an offset on, none of which is left out: the precursor at 0, the energy at 16.
    Every { from: u64, stride: u64, count: u64 },
    // In a body of version 66, where they have to be looked for.
    Sought { tribrid: bool },
}

// A precursor that is kept: finite and not negative. A negative zero is kept.
pub fn acceptable(bits: u64) -> bool
    ensures { result ≡ acceptable bits }
{
    is_finite64(bits) && 0.0 <= f64_of_bits(bits)
}

// A precursor without a count word before it: between 0 and 50,000, both excluded.
fn plausible_precursor(bits: u64) -> bool
    ensures { result ≡ plausible_precursor bits }
{
    let x = f64_of_bits(bits);
    is_finite64(bits) && 0.0 < x && x < 50000.0
}

// Whether the record at 4 that has no count word is taken.
fn has_uncounted(body: &[u8]) -> bool
    ensures { result ≡ has_uncounted body.now }
{
    36 <= body.len() && plausible_precursor(u64_at(body, 4))
}

// How many records are read. A stored count above the largest gives none.
fn record_count(body: &[u8], at: u64, from: u64) -> u64
    requires { from ≤ 8 }
    ensures { result ≡ record_count body.now at from }
{
    let stored = u32_at(body, at) as u64;
    let largest = (remaining(body, from + 32) / 32).max(1);
    if stored <= largest {
        stored.min(remaining(body, from) / 32)
    } else {
        0
    }
}

// How many of the first n records are kept. Counting and writing walk the records alike, since nothing is written before the room is judged.
fn count_kept(body: &[u8], from: u64, n: u64) -> u64
    requires { (from ≤ 8) × (n * 32 ≤ length body.now) }
    ensures { result ≡ length (kept body.now from n) }
{
    let mut count = 0;
    for i in 0..n {
        if acceptable(u64_at(body, from + i * 32)) {
            count += 1;
        }
    }
    count
}

// Writes the kept ones of the first n records, for which there is room. Answers how many are kept.
fn write_kept(body: &[u8], from: u64, n: u64, precursors: &mut [u64], energies: &mut [u64]) -> u64
    requires from_bound { (from ≤ 8) × (n * 32 ≤ length body.now) }
    requires n_in_bounds { length (kept body.now from n) ≤ length precursors.old }
    requires n_in_bounds_2 { length (kept body.now from n) ≤ length energies.old }
    ensures value { result ≡ length (kept body.now from n) }
    ensures precursors_after { precursors.new ≡ over (firsts (kept body.now from n)) precursors.old }
    ensures energies_after { energies.new ≡ over (seconds (kept body.now from n)) energies.old }
{
    let mut count = 0;
    for i in 0..n {
        let offset = from + i * 32;
        let precursor = u64_at(body, offset);
        if acceptable(precursor) {
            let k = count as usize;
            precursors[k] = precursor;
            energies[k] = u64_at(body, offset + 16);
            count += 1;
        }
    }
    count
}

// How many reactions are found in a body of version 66.
fn count_sought(body: &[u8], tribrid: bool) -> u64
    ensures { result ≡ length (reactions_in tribrid body.now) }
{
    if body.len() < 8 {
        return 0;
    }
    if tribrid {
        return count_kept(body, 4, record_count(body, 0, 4));
    }
    let count = count_kept(body, 8, record_count(body, 4, 8));
    if count == 0 && has_uncounted(body) {
        1
    } else {
        count
    }
}

// Writes them, where there is room.
fn write_sought(body: &[u8], tribrid: bool, precursors: &mut [u64], energies: &mut [u64])
    requires body_in_bounds { length (reactions_in tribrid body.now) ≤ length precursors.old }
    requires body_in_bounds_2 { length (reactions_in tribrid body.now) ≤ length energies.old }
    ensures precursors_after { precursors.new ≡ over (firsts (reactions_in tribrid body.now)) precursors.old }
    ensures energies_after { energies.new ≡ over (seconds (reactions_in tribrid body.now)) energies.old }
{
    if body.len() < 8 {
        return;
    }
    if tribrid {
        write_kept(body, 4, record_count(body, 0, 4), precursors, energies);
        return;
    }
    let count = write_kept(body, 8, record_count(body, 4, 8), precursors, energies);
    if count == 0 && has_uncounted(body) {
        let _ = copy::<u64>(body, 4, 32, 1, precursors);
        let _ = copy::<u64>(body, 20, 32, 1, energies);
    }
}

// How many reactions a source gives.
pub fn count_reactions(body: &[u8], source: Source) -> u64
    ensures { result ≡ length (in_source body.now source) }
{
    match source {
        Source::Every {
            from: _,
            stride: _,
            count,
        } => count,
        Source::Sought { tribrid } => count_sought(body, tribrid),
    }
}

fn write_source(body: &[u8], source: Source, precursors: &mut [u64], energies: &mut [u64])
    requires source_in_bounds { length (in_source body.now source) ≤ length precursors.old }
    requires source_in_bounds_2 { length (in_source body.now source) ≤ length energies.old }
    ensures precursors_after { precursors.new ≡ fitting (firsts (in_source body.now source)) precursors.old }
    ensures energies_after { energies.new ≡ fitting (seconds (in_source body.now source)) energies.old }
{
    match source {
        Source::Every {
            from,
            stride,
            count,
        } => {
            let _ = copy::<u64>(body, from, stride, count, precursors);
            let _ = copy::<u64>(body, saturating_add(from, 16), stride, count, energies);
        }
        Source::Sought { tribrid } => write_sought(body, tribrid, precursors, energies),
    }
}

// The precursors and energies of a source, over the fronts of two slices that hold them.
pub fn write_reactions(
    body: &[u8],
    source: Source,
    precursors: &mut [u64],
    energies: &mut [u64],
) -> Result<u64, Refusal>
    ensures { LeftPairs (λ m n. pairs_if_fit m n (in_source body.now source))
        precursors.old energies.old result precursors.new energies.new }
{
    let count = count_reactions(body, source);
    if fits([count, count], [precursors.len(), energies.len()]) {
        write_source(body, source, precursors, energies);
        return Ok(count);
    }
    Err(Refusal::NoRoom)
}
