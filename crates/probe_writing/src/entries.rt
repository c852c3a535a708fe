// Index entries: the crate `scan_index`.
use crate::RECORD;
use probe_text::{Answer, Fields, ProbeError};
use scan_index::ScanIndexEntry;

// The fields of an entry, in the order of `entry`'s answer.
fn entry(fields: &mut Fields) -> Result<ScanIndexEntry, ProbeError> {
    Ok(ScanIndexEntry {
        index: fields.number()?,
        scan_event: fields.number()?,
        scan_segment: fields.number()?,
        data_size: fields.number()?,
        start_time: fields.number()?,
        total_current: fields.number()?,
        base_intensity: fields.number()?,
        base_mz: fields.number()?,
        low_mz: fields.number()?,
        high_mz: fields.number()?,
        offset: fields.number()?,
    })
}

pub(crate) fn write_entry(fields: &mut Fields, answer: &mut Answer) -> Result<(), ProbeError> {
    let version = fields.number()?;
    let mut lent = fields.lent::<u8>(RECORD)?;
    let entry = entry(fields)?;
    fields.end()?;
    answer.count(entry.write(version, &mut lent))?;
    answer.slice(&lent)
}

// The entry at a place of the run, written back.
pub(crate) fn rewrite_entry(fields: &mut Fields, answer: &mut Answer) -> Result<(), ProbeError> {
    let version = fields.number()?;
    let place = fields.number()?;
    let mut lent = fields.lent::<u8>(RECORD)?;
    let run = fields.bytes()?;
    fields.end()?;
    match ScanIndexEntry::read(&run, place, version) {
        Ok(entry) => answer.count(entry.write(version, &mut lent))?,
        Err(refusal) => answer.refused(refusal)?,
    }
    answer.slice(&lent)
}
