// Scan k of a tray, and where its events stand.
#![tactic(auto)]

ghost use Rattle.std.specs.Prelude.{◌≡◌, [], ◌∷◌};
ghost use Rattle.refusal.specs.Number.{outcome_of};
ghost use Rattle.lists.specs.Left.{LeftListsAndPairs};
ghost use Rattle.tray_scan.specs.Scan.{place_or_end};
ghost use Rattle.tray.specs.Scan.{header_with, read_scan, read_scan_from, event_of, next_event};

use events::{event_end, event_place};
use refusal::Refusal;
use tray_header::{TrayHeader, read_tray_header};
use tray_scan::{Scan, scan_at};

// The header of a tray that has a scan k.
fn header_with(tray: &[u8], k: u32) -> Result<TrayHeader, Refusal>
    ensures { outcome_of result ≡ header_with 4096 6 k tray.now }
{
    let h = read_tray_header(tray)?;
    if k < h.scans {
        return Ok(h);
    }
    Err(Refusal::NoSuchScan)
}

// Scan k of a tray, whose event stands at this place of the run: who goes from scan to scan need not walk the events anew.
pub fn read_scan_from(
    tray: &[u8],
    k: u32,
    at: u64,
    preamble: &mut [u8],
    precursors: &mut [u64],
    energies: &mut [u64],
    coefficients: &mut [u64],
    mz: &mut [f64],
    intensity: &mut [f64],
) -> Result<Scan, Refusal>
    ensures { LeftListsAndPairs (λ c. read_scan_from 4096 6 c k at tray.now)
        (preamble.old ∷ precursors.old ∷ energies.old ∷ coefficients.old ∷ []) mz.old intensity.old
        (outcome_of result) (preamble.new ∷ precursors.new ∷ energies.new ∷ coefficients.new ∷ []) mz.new intensity.new }
{
    let h = header_with(tray, k)?;
    let run = &tray[32..];
    let read = scan_at(
        run,
        at,
        h,
        k,
        preamble,
        precursors,
        energies,
        coefficients,
        mz,
        intensity,
    );
    read.scan
}

// Where event k stands in the run.
pub fn event_of(tray: &[u8], k: u32) -> Result<u64, Refusal>
    ensures { outcome_of result ≡ event_of 4096 6 k tray.now }
{
    let h = header_with(tray, k)?;
    event_place(
        &tray[32..],
        h.events as u64,
        k as u16,
        h.version,
        h.primary,
        h.dependent,
    )
}

// Where the event at a place of the run ends, and the next one starts.
pub fn next_event(tray: &[u8], at: u64) -> Result<u64, Refusal>
    ensures { outcome_of result ≡ next_event 4096 6 at tray.now }
{
    let h = read_tray_header(tray)?;
    event_end(&tray[32..], at, h.version, h.primary, h.dependent)
}

// A place to read event k at. Where there is none it is after every run, where the event runs out again, after entry k.
fn place_or_end(found: Result<u64, Refusal>) -> u64
    ensures { result ≡ place_or_end (outcome_of found) }
{
    found.unwrap_or(u64::MAX)
}

// Scan k of a tray.
pub fn read_scan(
    tray: &[u8],
    k: u32,
    preamble: &mut [u8],
    precursors: &mut [u64],
    energies: &mut [u64],
    coefficients: &mut [u64],
    mz: &mut [f64],
    intensity: &mut [f64],
) -> Result<Scan, Refusal>
    ensures { LeftListsAndPairs (λ c. read_scan 4096 6 c k tray.now)
        (preamble.old ∷ precursors.old ∷ energies.old ∷ coefficients.old ∷ []) mz.old intensity.old
        (outcome_of result) (preamble.new ∷ precursors.new ∷ energies.new ∷ coefficients.new ∷ []) mz.new intensity.new }
{
    let at = place_or_end(event_of(tray, k));
    read_scan_from(
        tray,
        k,
        at,
        preamble,
        precursors,
        energies,
        coefficients,
        mz,
        intensity,
    )
}
