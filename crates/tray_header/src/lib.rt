// The header of a tray: a run, with what is needed to read its scans in front of it.
#![tactic(auto)]

ghost use Rattle.std.specs.Prelude.{◌≡◌, ◌≤◌};
ghost use Rattle.refusal.specs.Number.{outcome_of};
ghost use Rattle.parser.specs.Parser.{remaining};
ghost use Rattle.parser.specs.Internal.{value};
ghost use Rattle.tray_header.specs.Header.{header, read_tray_header};

use reader::{remaining, u32_at};
use refusal::{Part, Refusal};

#[derive(Clone, Copy)]
pub struct TrayHeader {
    pub version: u32,
    // 0 or 1 in a header that was read: the word as it stands, like the seven others.
    pub flat: u32,
    // Body sizes of primary and dependent events, from version 66 on.
    pub primary: u32,
    pub dependent: u32,
    pub scans: u32,
    // Places of the index, the events and the data in the run, which starts after the header.
    pub index: u32,
    pub events: u32,
    pub data: u32,
}

// The fields of a header whose bytes are there.
fn fields(tray: &[u8]) -> TrayHeader
    requires { 32 ≤ remaining tray.now 0 }
    ensures { result ≡ value header tray.now 0 0 }
{
    TrayHeader {
        version: u32_at(tray, 0),
        flat: u32_at(tray, 4),
        primary: u32_at(tray, 8),
        dependent: u32_at(tray, 12),
        scans: u32_at(tray, 16),
        index: u32_at(tray, 20),
        events: u32_at(tray, 24),
        data: u32_at(tray, 28),
    }
}

// The header of a tray: its flat word is 0 or 1, and it has at most 4,096 scans.
pub fn read_tray_header(tray: &[u8]) -> Result<TrayHeader, Refusal>
    ensures { outcome_of result ≡ read_tray_header tray.now }
{
    if remaining(tray, 0) < 32 {
        return Err(Refusal::Short(Part::Header));
    }
    let h = fields(tray);
    if h.flat > 1 {
        return Err(Refusal::FlatWord);
    }
    if h.scans > 4096 {
        return Err(Refusal::TooManyScans);
    }
    Ok(h)
}
