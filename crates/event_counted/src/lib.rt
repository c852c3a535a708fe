// Scan events of version 66 whose body starts with its reaction count (`read_counted_v66` of scan_event.rs).
#![tactic(auto)]

ghost use Rattle.std.specs.Prelude.{◌≡◌, ◌+◌, ◌^◌, ◌<◌, [], ◌∷◌};
ghost use Rattle.refusal.specs.Number.{outcome_of};
ghost use Rattle.lists.specs.Left.{LeftLists};
ghost use Rattle.event_counted.specs.Layout.{judge_record, judge_records, kept_count, lists_counted, judge_body, read_counted};
ghost use Rattle.event_counted.specs.Internal.{find_counted};

use event_coefficients::coefficient_count;
use event_preamble::is_primary;
use event_reactions::{Source, acceptable};
use event_record::{EventAndNext, Lists, Places};
use event_window::plausible_window;
use event_writer::write_event;
use reader::{bytes, remaining, u32_at, u64_at};
use refusal::{Part, Refusal};

// Record i of a body that starts at `start` of the run.
fn judge_record(start: u64, body: &[u8], i: u64) -> Result<(), Refusal>
    requires { (start < 2 ^ 63 + 2 ^ 32) × (i < 2 ^ 32) }
    ensures { outcome_of result ≡ judge_record start body.now i }
{
    let off = 4 + i * 56;
    if remaining(body, off) < 8 {
        return Err(Refusal::BodyTooShort);
    }
    let bits = u64_at(body, off);
    if !acceptable(bits) {
        return Err(Refusal::InvalidPrecursorMz {
            place: start + off,
            bits,
        });
    }
    if remaining(body, off + 16) < 8 {
        return Err(Refusal::BodyTooShort);
    }
    Ok(())
}

// The first n records. The loop ends at the first that is wrong or passes the body, whatever count is stored.
fn judge_records(start: u64, body: &[u8], n: u64) -> Result<(), Refusal>
    requires { (start < 2 ^ 63 + 2 ^ 32) × (n < 2 ^ 32) }
    ensures { outcome_of result ≡ judge_records start body.now n }
{
    for i in 0..n {
        judge_record(start, body, i)?;
    }
    Ok(())
}

// A primary event's records are neither judged nor kept.
fn kept_count(bytes: &[u8], count: u64) -> u64
    ensures { result ≡ kept_count bytes.now count }
{
    if is_primary(bytes) { 0 } else { count }
}

// Where the lists of a body stand whose records are sound, and its window.
fn lists_of(bytes: &[u8], body: &[u8], count: u64) -> Lists
    requires { count < 2 ^ 32 }
    ensures { result ≡ lists_counted bytes.now body.now count }
{
    let offset = count * 56 + 8;
    Lists {
        reactions: Source::Every {
            from: 4,
            stride: 56,
            count: kept_count(bytes, count),
        },
        coefficients_at: offset + 20,
        coefficients: coefficient_count(body, offset + 16),
        window: plausible_window(body, offset),
    }
}

fn judge_body(start: u64, bytes: &[u8], body: &[u8]) -> Result<Lists, Refusal>
    requires { start < 2 ^ 63 + 2 ^ 32 }
    ensures { outcome_of result ≡ judge_body start bytes.now body.now }
{
    if remaining(body, 0) < 4 {
        return Err(Refusal::BodyTooShort);
    }
    let count = u32_at(body, 0) as u64;
    judge_records(start, body, kept_count(bytes, count))?;
    Ok(lists_of(bytes, body, count))
}

// The event at a place of the run. Nothing is written.
fn find_counted(run: &[u8], at: u64, body_size: u32) -> Result<Places, Refusal>
    ensures { outcome_of result ≡ find_counted body_size at run.now }
{
    if remaining(run, at) < 136 {
        return Err(Refusal::Short(Part::Event));
    }
    let body = at + 136;
    let size = body_size as u64;
    if remaining(run, body) < size {
        return Err(Refusal::Short(Part::Event));
    }
    let lists = judge_body(body, bytes(run, at, 136), bytes(run, body, size))?;
    Ok(Places {
        preamble: at,
        preamble_len: 136,
        lists,
        next: body + size,
    })
}

pub fn read_counted_v66(
    run: &[u8],
    at: u64,
    body_size: u32,
    preamble: &mut [u8],
    precursors: &mut [u64],
    energies: &mut [u64],
    coefficients: &mut [u64],
) -> Result<EventAndNext, Refusal>
    ensures { LeftLists (λ c. read_counted body_size c at run.now)
        (preamble.old ∷ precursors.old ∷ energies.old ∷ coefficients.old ∷ [])
        (outcome_of result) (preamble.new ∷ precursors.new ∷ energies.new ∷ coefficients.new ∷ []) }
{
    let p = find_counted(run, at, body_size)?;
    write_event(run, p, preamble, precursors, energies, coefficients)
}
