// The bytes of a scan event below version 66, from its record and the slices of its lists (document 02, L3).
#![tactic(auto)]

ghost use Rattle.std.specs.Prelude.{◌≡◌, min, zip, length};
ghost use Rattle.std.proofs.lemmas.List.Edits.{sets};
ghost use Rattle.lists.specs.Left.{LeftListBy};
ghost use Rattle.layout.specs.Layout.{concat, written};
ghost use Rattle.event_before_66.specs.Layout.{reaction, layout_before_66};
ghost use Rattle.event_bytes.specs.Write.{event_from, codes_given, activation_given, window_given, held_before_66, write_if_fits, write_before_66};
ghost use Rattle.event_bytes.specs.Internal.{Small};

use event_preamble::{decode, size_for_version};
use event_record::{ScanEvent, activation};
use event_window::{FoundWindow, Window};
use float_bits::{bits_of_f64, f64_of_bits};
use lists::fits;
use reader::saturating_add;
use refusal::Refusal;
use writer::{store_bytes, store_u32, store_u64, store_u64s};

// Whether the record's codes are those that its preamble gives; not judged where bytes of it are missing.
fn codes_given(event: ScanEvent, preamble: &[u8]) -> bool
    ensures { result ≡ codes_given event preamble.now }
{
    if event.preamble_len <= preamble.len() as u64 {
        event.preamble == decode(&preamble[..event.preamble_len as usize])
    } else {
        true
    }
}

// Whether the record's own activation is what its preamble and its precursors give; not judged where some are missing.
fn activation_given(event: ScanEvent, preamble: &[u8], precursors: &[u64]) -> bool
    ensures { result ≡ activation_given event preamble.now precursors.now }
{
    if fits(
        [event.preamble_len, event.reactions],
        [preamble.len(), precursors.len()],
    ) {
        let end = event.preamble_len as usize;
        let n = event.reactions as usize;
        event.activation == activation(&preamble[..end], &precursors[..n])
    } else {
        true
    }
}

// Whether the window is there, and its ends are the floats of these bits.
fn window_given(window: Window, low: u64, high: u64) -> bool
    ensures { result ≡ window_given window low high }
{
    match window {
        Window::Absent => false,
        Window::Ends(l, h) => {
            bits_of_f64(l) == bits_of_f64(f64_of_bits(low))
                && bits_of_f64(h) == bits_of_f64(f64_of_bits(high))
        }
    }
}

// Whether the layout of the version holds the record.
fn is_held(version: u32, event: ScanEvent, preamble: &[u8], precursors: &[u64]) -> bool
    ensures { result ≡ held_before_66 version event preamble.now precursors.now }
{
    version < 66
        && event.preamble_len == size_for_version(version)
        && codes_given(event, preamble)
        && activation_given(event, preamble, precursors)
        && window_given(event.window, event.low_mz, event.high_mz)
        && event.reactions < 0x1_0000_0000
        && event.coefficients < 0x1_0000_0000
}

fn store_reaction(out: &mut [u8], at: u64, precursor: u64, energy: u64)
    ensures { out.new ≡ sets out.old at (written reaction (precursor, energy)) }
{
    store_u64(out, at, precursor);
    store_u64(out, saturating_add(at, 8), 0);
    store_u64(out, saturating_add(at, 16), energy);
    store_u64(out, saturating_add(at, 24), 0);
}

fn store_reactions(out: &mut [u8], at: u64, precursors: &[u64], energies: &[u64])
    ensures { out.new ≡ sets out.old at (concat (written reaction) (zip precursors.now energies.now)) }
{
    let mut place = at;
    for (&precursor, &energy) in precursors.iter().zip(energies) {
        store_reaction(out, place, precursor, energy);
        place = saturating_add(place, 32);
    }
}

// The parts of an event, one after the other, as far as the slice goes.
fn store_event(
    version: u32,
    window: FoundWindow,
    preamble: &[u8],
    precursors: &[u64],
    energies: &[u64],
    coefficients: &[u64],
    out: &mut [u8],
)
    requires { Small (length preamble.now) (min (length precursors.now) (length energies.now)) (length coefficients.now) }
    ensures { out.new ≡ sets out.old 0
        (written (layout_before_66 version) (event_from window preamble.now precursors.now energies.now coefficients.now)) }
{
    let n = precursors.len().min(energies.len()) as u64;
    let count = preamble.len() as u64;
    let ends = count + 4 + n * 32;
    let last = ends + 24 + (coefficients.len() as u64) * 8;
    store_bytes(out, 0, preamble);
    store_u32(out, count, n as u32);
    store_reactions(out, count + 4, precursors, energies);
    store_u32(out, ends, 0);
    store_u64(out, ends + 4, window.low);
    store_u64(out, ends + 12, window.high);
    store_u32(out, ends + 20, coefficients.len() as u32);
    store_u64s(out, ends + 24, coefficients);
    store_u64(out, last, 0);
}

// The event of a record that is held, where the slices hold it.
fn write_held(
    version: u32,
    event: ScanEvent,
    preamble: &[u8],
    precursors: &[u64],
    energies: &[u64],
    coefficients: &[u64],
    out: &mut [u8],
) -> Result<u64, Refusal>
    requires { Small event.preamble_len event.reactions event.coefficients }
    ensures { LeftListBy (write_if_fits version event preamble.now precursors.now energies.now coefficients.now)
        out.old result out.new }
{
    let offset = event.reactions * 32 + 8;
    let size = event.preamble_len + offset + event.coefficients * 8 + 28;
    if fits(
        [
            event.preamble_len,
            event.reactions,
            event.reactions,
            event.coefficients,
            size,
        ],
        [
            preamble.len(),
            precursors.len(),
            energies.len(),
            coefficients.len(),
            out.len(),
        ],
    ) {
        let p = event.preamble_len as usize;
        let n = event.reactions as usize;
        let m = event.coefficients as usize;
        let found = FoundWindow {
            window: event.window,
            low: event.low_mz,
            high: event.high_mz,
            offset,
        };
        store_event(
            version,
            found,
            &preamble[..p],
            &precursors[..n],
            &energies[..n],
            &coefficients[..m],
            out,
        );
        return Ok(size);
    }
    Err(Refusal::NoRoom)
}

// The event over the front of a lent slice, and how many bytes it takes. Its lists are the first elements of their slices, as many
// as the record counts.
pub fn write_before_66(
    version: u32,
    event: ScanEvent,
    preamble: &[u8],
    precursors: &[u64],
    energies: &[u64],
    coefficients: &[u64],
    out: &mut [u8],
) -> Result<u64, Refusal>
    ensures { LeftListBy (write_before_66 version event preamble.now precursors.now energies.now coefficients.now)
        out.old result out.new }
{
    if is_held(version, event, preamble, precursors) {
        return write_held(
            version,
            event,
            preamble,
            precursors,
            energies,
            coefficients,
            out,
        );
    }
    Err(Refusal::NotHeld)
}
