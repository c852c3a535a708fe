// Answers the requests on peaks of packets, of flat and of SRM records, and on SRM windows: the crates `packet_peak_list`,
// `srm_flat_peaks` and `srm_scan`.
#![tactic(auto)]

ghost use Rattle.std.specs.Prelude.{◌≡◌, Ok, false};

use packet_peak_list::read_peaks_only;
use probe_text::fields::LENT;
use probe_text::{Answer, Fields, ProbeError};
use refusal::Refusal;
use srm_flat_peaks::{find_flat_peaks, read_flat_peaks};
use srm_scan::{find_srm_peaks, read_scan_srm_v66, read_scan_srm_v66_windows};

// The slices that are lent for peaks.
#[derive(Drop)]
struct PeakSlices {
    mz: Vec<u64>,
    abundance: Vec<u32>,
}

impl PeakSlices {
    // The fields M and A.
    fn lent(fields: &mut Fields) -> Result<PeakSlices, ProbeError> {
        Ok(PeakSlices {
            mz: fields.lent(LENT)?,
            abundance: fields.lent(LENT)?,
        })
    }

    fn put(&self, answer: &mut Answer) -> Result<(), ProbeError> {
        answer.slice(&self.mz)?;
        answer.slice(&self.abundance)
    }
}

fn peaks(fields: &mut Fields, answer: &mut Answer) -> Result<(), ProbeError> {
    let place = fields.number()?;
    let mut lent = PeakSlices::lent(fields)?;
    let run = fields.bytes()?;
    fields.end()?;
    let count = read_peaks_only(&run, place, &mut lent.mz, &mut lent.abundance);
    answer.count(count)?;
    lent.put(answer)
}

fn flat(fields: &mut Fields, answer: &mut Answer) -> Result<(), ProbeError> {
    let data = fields.number()?;
    let offset = fields.number()?;
    let size = fields.number()?;
    let mut lent = PeakSlices::lent(fields)?;
    let run = fields.bytes()?;
    fields.end()?;
    let count = read_flat_peaks(&run, data, offset, size, &mut lent.mz, &mut lent.abundance);
    answer.count(count)?;
    lent.put(answer)
}

fn srm(fields: &mut Fields, answer: &mut Answer) -> Result<(), ProbeError> {
    let data = fields.number()?;
    let offset = fields.number()?;
    let mut lent = PeakSlices::lent(fields)?;
    let run = fields.bytes()?;
    fields.end()?;
    let count = read_scan_srm_v66(&run, data, offset, &mut lent.mz, &mut lent.abundance);
    answer.count(count)?;
    lent.put(answer)
}

fn srm_windows(fields: &mut Fields, answer: &mut Answer) -> Result<(), ProbeError> {
    let data = fields.number()?;
    let offset = fields.number()?;
    let mut low = fields.lent::<u32>(LENT)?;
    let mut high = fields.lent::<u32>(LENT)?;
    let run = fields.bytes()?;
    fields.end()?;
    let count = read_scan_srm_v66_windows(&run, data, offset, &mut low, &mut high);
    answer.count(count)?;
    answer.slice(&low)?;
    answer.slice(&high)
}

fn put_found(answer: &mut Answer, found: Result<(u64, u64), Refusal>) -> Result<(), ProbeError> {
    match found {
        Ok((place, count)) => {
            answer.ok_number(place)?;
            answer.number(count)
        }
        Err(refusal) => answer.refused(refusal),
    }
}

fn find_flat(fields: &mut Fields, answer: &mut Answer) -> Result<(), ProbeError> {
    let data = fields.number()?;
    let offset = fields.number()?;
    let size = fields.number()?;
    let run = fields.bytes()?;
    fields.end()?;
    put_found(answer, find_flat_peaks(&run, data, offset, size))
}

fn find_srm(fields: &mut Fields, answer: &mut Answer) -> Result<(), ProbeError> {
    let data = fields.number()?;
    let offset = fields.number()?;
    let run = fields.bytes()?;
    fields.end()?;
    put_found(answer, find_srm_peaks(&run, data, offset))
}

// Answers a request by its word and the fields after that: whether the word is one of these. Where it is none, the fields
// and the answer stay as they were, for the next crate that is asked.
pub fn try_answer(word: &str, fields: &mut Fields, answer: &mut Answer) -> Result<bool, ProbeError>
    ensures { result ≡ Ok false → (fields.new ≡ fields.old) × (answer.new ≡ answer.old) }
{
    match word {
        "peaks" => peaks(fields, answer)?,
        "flat" => flat(fields, answer)?,
        "srm" => srm(fields, answer)?,
        "srm_windows" => srm_windows(fields, answer)?,
        "find_flat" => find_flat(fields, answer)?,
        "find_srm" => find_srm(fields, answer)?,
        _ => return Ok(false),
    }
    Ok(true)
}
