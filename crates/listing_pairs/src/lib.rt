// The pairs of a scan that are listed, moved to the fronts of their slices.
#![tactic(auto)]

ghost use Rattle.std.specs.Prelude.{◌≡◌, length};
ghost use mathlib.Core.List.{zip};
ghost use Rattle.lists.specs.Left.{columns};
ghost use Rattle.listing_pairs.specs.Listed.{is_listed, listed_pairs};

use scan_format::ScanDataFormat;

// Whether a pair of this m/z is listed. In a scan of either flat kind m/z 0 marks a transition that saw nothing.
fn is_listed(format: ScanDataFormat, mz: f64) -> bool
    ensures { result ≡ is_listed format mz }
{
    match format {
        ScanDataFormat::PacketHeader => true,
        ScanDataFormat::FlatV63 => mz != 0.0,
        ScanDataFormat::FlatV66 => mz != 0.0,
    }
}

// Moves the pairs that are listed, of as many as both slices have, to the fronts. How many there are.
pub fn keep_listed(format: ScanDataFormat, mz: &mut [f64], intensity: &mut [f64]) -> usize
    ensures value { result ≡ length (listed_pairs format (zip mz.old intensity.old)) }
    ensures intensity_after { (mz.new, intensity.new) ≡ columns (listed_pairs format (zip mz.old intensity.old)) (mz.old, intensity.old) }
{
    let pairs = mz.len().min(intensity.len());
    let mut kept: usize = 0;
    for i in 0..pairs {
        if is_listed(format, mz[i]) {
            mz[kept] = mz[i];
            intensity[kept] = intensity[i];
            kept = kept + 1;
        }
    }
    kept
}
