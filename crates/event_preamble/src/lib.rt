// The preamble of a scan event (`ScanEventPreamble` of scan_event.rs): its size, and what its bytes say. Any number of
// bytes may be there: a code whose byte is missing is none, and any other missing byte counts as 0.
#![tactic(auto)]

ghost use Rattle.std.specs.Prelude.{◌≡◌};
ghost use Rattle.event_preamble.specs.Size.{size_for_version};
ghost use Rattle.event_preamble.specs.Settings.{byte, code_at, is_set, is_dependent, is_dia, is_wideband, named as is_named, activation_at, settings, is_primary};
ghost use Rattle.codes.specs.declared.Family.TheVariants.{Analyzer, Polarity, ScanMode, MsPower, ScanType, Ionization};

use codes::{Activation, Family};
use reader::u8_at;

// How many bytes it takes.
#[tactic(auto, unfolding(crate::specs::Size::size_for_version))]
pub fn size_for_version(version: u32) -> u64
    ensures { result ≡ size_for_version version }
{
    match version {
        0..=8 => 41,
        57 | 60 => 80,
        62 => 120,
        63 | 64 => 128,
        _ => 136,
    }
}

// The codes stay numbers: the writer of events compares them with those that the bytes give, a number without a name
// among them, and an enum of names could hold none of those.
#[derive(Clone, Copy, PartialEq, Eq)]
pub struct ScanEventPreamble {
    pub polarity: Option<u32>,
    pub scan_mode: Option<u32>,
    pub ms_power: Option<u32>,
    pub scan_type: Option<u32>,
    pub dependent: bool,
    pub dia: bool,
    pub ionization: Option<u32>,
    pub activation: Activation,
    pub activation_byte: u8,
    pub wideband: bool,
    pub analyzer: Option<u32>,
}

fn code_at(family: Family, bytes: &[u8], i: u64) -> Option<u32>
    ensures { result ≡ code_at family bytes.now i }
{
    if i < bytes.len() as u64 {
        codes::decode(family, u8_at(bytes, i) as u32)
    } else {
        None
    }
}

// A flag is set where its byte is 1.
fn is_set(bytes: &[u8], i: u64) -> bool
    ensures { result ≡ is_set bytes.now i }
{
    u8_at(bytes, i) == 1
}

pub fn polarity(bytes: &[u8]) -> Option<u32>
    ensures { result ≡ code_at Polarity bytes.now 4 }
{
    code_at(Family::Polarity, bytes, 4)
}

pub fn scan_mode(bytes: &[u8]) -> Option<u32>
    ensures { result ≡ code_at ScanMode bytes.now 5 }
{
    code_at(Family::ScanMode, bytes, 5)
}

pub fn ms_power(bytes: &[u8]) -> Option<u32>
    ensures { result ≡ code_at MsPower bytes.now 6 }
{
    code_at(Family::MsPower, bytes, 6)
}

pub fn scan_type(bytes: &[u8]) -> Option<u32>
    ensures { result ≡ code_at ScanType bytes.now 7 }
{
    code_at(Family::ScanType, bytes, 7)
}

pub fn is_dependent(bytes: &[u8]) -> bool
    ensures { result ≡ is_dependent bytes.now }
{
    is_set(bytes, 10)
}

// MS2 or more, and not dependent: all ions of a wide window are fragmented together.
pub fn is_dia(bytes: &[u8]) -> bool
    ensures { result ≡ is_dia bytes.now }
{
    u8_at(bytes, 6) >= 2 && !is_dependent(bytes)
}

// Whether the event's body has the primary size.
pub fn is_primary(bytes: &[u8]) -> bool
    ensures { result ≡ is_primary bytes.now }
{
    u8_at(bytes, 6) <= 1 && !is_dependent(bytes)
}

pub fn ionization(bytes: &[u8]) -> Option<u32>
    ensures { result ≡ code_at Ionization bytes.now 11 }
{
    code_at(Family::Ionization, bytes, 11)
}

fn named(activation: Activation) -> bool
    ensures { result ≡ is_named activation }
{
    matches!(activation, Activation::HCD | Activation::CID)
}

// From the preamble alone, which cannot tell EThcD from ETD.
#[tactic(auto, unfolding(crate::specs::Settings::activation_at))]
pub fn activation(bytes: &[u8]) -> Activation
    ensures { result ≡ activation_at bytes.now }
{
    let base = Activation::from_byte(activation_byte(bytes));
    if bytes.len() == 136 && u8_at(bytes, 6) >= 2 && named(base) && u8_at(bytes, 120) == 1 {
        Activation::ETD
    } else {
        base
    }
}

pub fn activation_byte(bytes: &[u8]) -> u8
    ensures { result ≡ byte bytes.now 24 }
{
    u8_at(bytes, 24)
}

pub fn is_wideband(bytes: &[u8]) -> bool
    ensures { result ≡ is_wideband bytes.now }
{
    is_set(bytes, 32)
}

pub fn analyzer(bytes: &[u8]) -> Option<u32>
    ensures { result ≡ code_at Analyzer bytes.now 40 }
{
    code_at(Family::Analyzer, bytes, 40)
}

pub fn decode(bytes: &[u8]) -> ScanEventPreamble
    ensures { result ≡ settings bytes.now }
{
    ScanEventPreamble {
        polarity: polarity(bytes),
        scan_mode: scan_mode(bytes),
        ms_power: ms_power(bytes),
        scan_type: scan_type(bytes),
        dependent: is_dependent(bytes),
        dia: is_dia(bytes),
        ionization: ionization(bytes),
        activation: activation(bytes),
        activation_byte: activation_byte(bytes),
        wideband: is_wideband(bytes),
        analyzer: analyzer(bytes),
    }
}
