// Builds a run of one scan by the calls that write records, with a tray's header before it, and prints the tray:
// `crates/build_run/out/build_run | crates/listing/out/listing`. An example for who builds test runs;
// examples/trays/built-run.txt describes the tray.
#![tactic(auto)]

use anyhow::{Context, bail};
use event_bytes::write_before_66;
use event_preamble::decode;
use event_record::{ScanEvent, activation};
use event_window::Window;
use float_bits::{bits_of_f32, bits_of_f64};
use refusal::Refusal;
use scan_index::ScanIndexEntry;
use writer::{store_u8, store_u32};

const VERSION: u32 = 63;

// The entry of the scan. A flat record is named by its end, and its size is one more than its peaks.
fn entry() -> ScanIndexEntry {
    ScanIndexEntry {
        index: 0,
        scan_event: 0,
        scan_segment: 0,
        data_size: 2,
        start_time: bits_of_f64(0.25),
        total_current: bits_of_f64(15420.0),
        base_intensity: bits_of_f64(15420.0),
        base_mz: bits_of_f64(138.0662),
        low_mz: bits_of_f64(200.0),
        high_mz: bits_of_f64(2000.0),
        offset: 9,
    }
}

// The record of an event without coefficients. What its preamble and its precursors say is asked of the decoder, so that the writer
// takes it.
fn event(preamble: &[u8], precursors: &[u64]) -> ScanEvent {
    ScanEvent {
        preamble_len: preamble.len() as u64,
        reactions: precursors.len() as u64,
        coefficients: 0,
        window: Window::Ends(200.0, 2000.0),
        low_mz: bits_of_f64(200.0),
        high_mz: bits_of_f64(2000.0),
        preamble: decode(preamble),
        activation: activation(preamble, precursors),
    }
}

// The index, right after the header.
fn write_index(tray: &mut [u8]) -> Result<u64, Refusal> {
    if tray.len() < 104 {
        return Err(Refusal::NoRoom);
    }
    entry().write(VERSION, &mut tray[32..104])
}

// An MS2 event of a triple quadrupole, positive, with one reaction. It stands after the index.
fn write_events(tray: &mut [u8]) -> Result<u64, Refusal> {
    let mut preamble = [0u8; 128];
    preamble[4] = 1;
    preamble[6] = 2;
    preamble[40] = 1;
    let precursors = [bits_of_f64(195.088)];
    let energies = [bits_of_f64(19.0)];
    let bytes = &preamble[..];
    let masses = &precursors[..];
    let record = event(bytes, masses);
    if tray.len() < 300 {
        return Err(Refusal::NoRoom);
    }
    write_before_66(
        VERSION,
        record,
        bytes,
        masses,
        &energies[..],
        &[],
        &mut tray[104..300],
    )
}

// The flat record of one peak, after the events: its mass, its intensity, and a byte.
fn store_data(tray: &mut [u8]) {
    store_u32(tray, 300, bits_of_f32(138.0662));
    store_u32(tray, 304, bits_of_f32(15420.0));
    store_u8(tray, 308, 0);
}

// The header's words: version, flat, two body sizes, one scan, and where index, events and data start in the run.
fn store_header(tray: &mut [u8]) {
    store_u32(tray, 0, VERSION);
    store_u32(tray, 4, 1);
    store_u32(tray, 8, 0);
    store_u32(tray, 12, 0);
    store_u32(tray, 16, 1);
    store_u32(tray, 20, 0);
    store_u32(tray, 24, 72);
    store_u32(tray, 28, 268);
}

fn main(rt: HostRuntime) -> anyhow::Result<()> {
    let mut tray = [0u8; 309];
    store_header(&mut tray);
    let index = write_index(&mut tray);
    let events = write_events(&mut tray);
    store_data(&mut tray);
    if index.is_err() {
        bail!("the entry was refused");
    }
    if events.is_err() {
        bail!("the event was refused");
    }
    rt.write_all(&tray[..]).context("standard output")
}
