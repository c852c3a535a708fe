// What a scan event holds, whatever its version (scan_event.rs): the answer of the functions that read one, the places of one
// that was found, and its activation. The lists go into lent slices; floats that are only read keep their bits.
#![tactic(auto)]

ghost use Rattle.std.specs.Prelude.{◌≡◌};
ghost use Rattle.event_record.specs.Activation.{above, with_precursor, supplemental, supplemented as supplemented_by, event_activation};

use codes::Activation;
use codes::analyzer::Analyzer;
use codes::ms_power::MsPower;
use event_preamble::ScanEventPreamble;
use event_reactions::Source;
use event_window::{FoundWindow, Window};
use float_bits::f64_of_bits;
use reader::u8_at;

#[derive(Clone, Copy)]
pub struct ScanEvent {
    // How many elements of each slice are the event's; reactions counts precursors and energies alike.
    pub preamble_len: u64,
    pub reactions: u64,
    pub coefficients: u64,
    pub window: Window,
    // The bits of the window's ends, 0 where it is absent. Below version 66 they may be a NaN's.
    pub low_mz: u64,
    pub high_mz: u64,
    pub preamble: ScanEventPreamble,
    pub activation: Activation,
}

// An event, and the place after it, which is no field of the event.
#[derive(Clone, Copy)]
pub struct EventAndNext {
    pub event: ScanEvent,
    pub next: u64,
}

// Where the lists of an event stand in its body, and its window.
#[derive(Clone, Copy)]
pub struct Lists {
    pub reactions: Source,
    pub coefficients_at: u64,
    pub coefficients: u64,
    pub window: FoundWindow,
}

// An event that was found: where its preamble stands in the run, and the place after it. Its body is all that follows the preamble.
#[derive(Clone, Copy)]
pub struct Places {
    pub preamble: u64,
    pub preamble_len: u64,
    pub lists: Lists,
    pub next: u64,
}

fn has_precursor(bits: u64) -> bool
    ensures { result ≡ above bits }
{
    0.0 < f64_of_bits(bits)
}

#[tactic(auto, using(crate::proofs::Precursors::is_count))]
fn with_precursor(precursors: &[u64]) -> u64
    ensures { result ≡ with_precursor precursors.now }
{
    precursors
        .iter()
        .filter(|&&bits| has_precursor(bits))
        .count() as u64
}

// An FTMS MS2 event with two or more reactions of which exactly one has a precursor: the other is the supplemental step.
fn has_supplemental_reaction(preamble: &[u8], precursors: &[u64]) -> bool
    ensures { result ≡ supplemental preamble.now precursors.now }
{
    u8_at(preamble, 6) as u32 == MsPower::Ms2 as u32
        && u8_at(preamble, 40) as u32 == Analyzer::FTMS as u32
        && precursors.len() >= 2
        && with_precursor(precursors) == 1
}

fn supplemented(activation: Activation, supplemental: bool) -> Activation
    ensures { result ≡ supplemented_by activation supplemental }
{
    match activation {
        Activation::ETD if supplemental => Activation::EThcD,
        other => other,
    }
}

// The activation of the event of a preamble and its reactions' precursors.
pub fn activation(preamble: &[u8], precursors: &[u64]) -> Activation
    ensures { result ≡ event_activation preamble.now precursors.now }
{
    supplemented(
        event_preamble::activation(preamble),
        has_supplemental_reaction(preamble, precursors),
    )
}
