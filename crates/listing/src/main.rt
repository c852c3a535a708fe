// Lists the tray on standard input, in the lines of document 01 but for the pairs that are not listed (L1). The texts are made by
// `listing_tray`, scan by scan. An input that cannot be read is no tray: standard error says what happened.
#![tactic(auto)]

ghost use Rattle.std.specs.Prelude.{◌≡◌, suc, ◌≤◌, ◌<◌, length, drop};
ghost use Rattle.refusal.specs.Outcome.{ok};
ghost use Rattle.tray_header.specs.Header.{read_tray_header};
ghost use Rattle.listing_tray.specs.Internal.{walked_place};

use anyhow::Context;
use listing_tray::{list_header, list_scan};
use refusal::Refusal;
use std::io;
use std::io::{Read, Write};
use tray_header::{TrayHeader, read_tray_header};

// What was written of the buffer, which holds every text: the lines of a scan take at most 55,360 bytes. A write that
// fails is passed over.
fn print<W: Write>(to: &mut W, out: &[u8; 57344], answer: Result<u64, Refusal>) {
    let Ok(n) = answer else {
        return;
    };
    let whole = &out[..];
    if n <= whole.len() as u64 {
        let end = n as usize;
        let _ = to.write_all(&whole[0..end]);
    }
}

fn print_header<W: Write>(to: &mut W, header: Result<TrayHeader, Refusal>) {
    let mut out = [0u8; 57344];
    let answer = list_header(header, &mut out);
    print(to, &out, answer);
}

// Scan k, whose event is read at a place of the run. The place for the next one.
fn print_scan<W: Write>(to: &mut W, tray: &[u8], h: TrayHeader, k: u32, at: u64) -> u64
    requires h_value { ok h ≡ read_tray_header tray.now }
    requires k_lt_scans { k < h.scans }
    requires at_value { at ≡ walked_place h k (drop 32 tray.now) }
    ensures { result ≡ walked_place h (suc k) (drop 32 tray.now) }
{
    let mut out = [0u8; 57344];
    let listed = list_scan(&tray[32..], at, h, k, &mut out);
    let answer = listed.written;
    print(to, &out, answer);
    listed.next
}

fn print_scans<W: Write>(to: &mut W, tray: &[u8], h: TrayHeader)
    requires { ok h ≡ read_tray_header tray.now }
{
    let mut at = h.events as u64;
    for k in 0..h.scans {
        at = print_scan(to, tray, h, k, at);
    }
}

// The header is read once.
fn print_tray<W: Write>(to: &mut W, tray: &[u8])
    requires { length tray.now ≤ 24576 }
{
    let header = read_tray_header(tray);
    print_header(to, header);
    if let Ok(h) = header {
        print_scans(to, tray, h);
    }
}

// A longer tray prints only `L`.
fn print_listing<W: Write>(to: &mut W, input: &[u8; 24577], n: usize) {
    let whole = &input[..];
    if n <= 24576 {
        print_tray(to, &whole[0..n]);
    } else {
        let _ = to.write_all(b"L\n");
    }
}

// Reads until the slice is full or the input ends. The loop counts no index: a read gives as many bytes as it likes.
fn read_input<R: Read>(from: &mut R, input: &mut [u8]) -> io::Result<usize> {
    let mut n: usize = 0;
    while n < input.len() {
        let more = from.read(&mut input[n..])?;
        if more == 0 {
            return Ok(n);
        }
        n = n + more;
    }
    Ok(n)
}

fn main(rt: HostRuntime) -> anyhow::Result<()> {
    let mut input = [0u8; 24577];
    let n = read_input(&mut rt.reader(), &mut input).context("standard input")?;
    print_listing(&mut io::writer(&rt), &input, n);
    Ok(())
}
