// Scan events below version 66: the crate `event_bytes`.
use crate::{RECORD, event_fields};
use event_bytes::write_before_66;
use probe_text::fields::{LENT, PREAMBLE};
use probe_text::{Answer, Fields, ProbeError};

pub(crate) fn write_event(fields: &mut Fields, answer: &mut Answer) -> Result<(), ProbeError> {
    let version = fields.number()?;
    let mut lent = fields.lent::<u8>(RECORD)?;
    let event = event_fields::event(fields)?;
    let preamble = fields.bytes_at_most(PREAMBLE)?;
    let precursors = fields.u64s()?;
    let energies = fields.u64s()?;
    let coefficients = fields.u64s()?;
    fields.end()?;
    let written = write_before_66(
        version,
        event,
        &preamble,
        &precursors,
        &energies,
        &coefficients,
        &mut lent,
    );
    answer.count(written)?;
    answer.slice(&lent)
}

// The event at a place of the run, written back from the slices that the reader filled.
pub(crate) fn rewrite_event(fields: &mut Fields, answer: &mut Answer) -> Result<(), ProbeError> {
    let version = fields.number()?;
    let place = fields.number()?;
    let mut lent = fields.lent::<u8>(RECORD)?;
    let run = fields.bytes()?;
    fields.end()?;
    let mut preamble = [0u8; PREAMBLE];
    let mut precursors = [0u64; LENT];
    let mut energies = [0u64; LENT];
    let mut coefficients = [0u64; LENT];
    let read = events::read(
        &run,
        place,
        version,
        0,
        0,
        &mut preamble,
        &mut precursors,
        &mut energies,
        &mut coefficients,
    );
    match read {
        Ok(read) => answer.count(write_before_66(
            version,
            read.event,
            &preamble,
            &precursors,
            &energies,
            &coefficients,
            &mut lent,
        ))?,
        Err(refusal) => answer.refused(refusal)?,
    }
    answer.slice(&lent)
}
