// Little-endian numbers into a lent slice, at a place of it: what `reader` reads. Every store has a meaning: a byte after the end
// is left out. Whoever must store all tests the room first.
#![tactic(auto)]

ghost use Rattle.std.specs.Prelude.{◌≡◌};
ghost use Rattle.std.proofs.lemmas.List.Edits.{sets};
ghost use Rattle.layout.specs.Layout.{le_bytes, concat};

use reader::saturating_add;

// The elements of a slice, one after the other.
pub fn store_bytes(out: &mut [u8], at: u64, xs: &[u8])
    ensures { out.new ≡ sets out.old at xs.now }
{
    let room = out.len() as u64;
    let start = at.min(room) as usize;
    let end = saturating_add(at, xs.len() as u64).min(room) as usize;
    out[start..end].copy_from_slice(&xs[..end - start]);
}

// All of the bytes fit: one test, and a copy of a length that the compiler knows. Over the slice's end: what of them fits.
fn store_array<const N: usize>(out: &mut [u8], at: u64, xs: [u8; N])
    ensures { out.new ≡ sets out.old at xs.entry }
{
    let room = out.len() as u64;
    if at <= room && N as u64 <= room - at {
        let start = at as usize;
        out[start..start + N].copy_from_slice(&xs);
    } else {
        store_bytes(out, at, &xs);
    }
}

// A store for each width: one line each, where a trait over the widths would need as many to say their bytes.
pub fn store_u8(out: &mut [u8], at: u64, x: u8)
    ensures { out.new ≡ sets out.old at (le_bytes 1 x) }
{
    store_array(out, at, [x]);
}

pub fn store_u16(out: &mut [u8], at: u64, x: u16)
    ensures { out.new ≡ sets out.old at (le_bytes 2 x) }
{
    store_array(out, at, u16::to_le_bytes(x));
}

pub fn store_u32(out: &mut [u8], at: u64, x: u32)
    ensures { out.new ≡ sets out.old at (le_bytes 4 x) }
{
    store_array(out, at, u32::to_le_bytes(x));
}

pub fn store_u64(out: &mut [u8], at: u64, x: u64)
    ensures { out.new ≡ sets out.old at (le_bytes 8 x) }
{
    store_array(out, at, u64::to_le_bytes(x));
}

pub fn store_u64s(out: &mut [u8], at: u64, xs: &[u64])
    ensures { out.new ≡ sets out.old at (concat (le_bytes 8) xs.now) }
{
    let mut place = at;
    for &x in xs {
        store_u64(out, place, x);
        place = saturating_add(place, 8);
    }
}
