// The walk over events: the crate `events`.
use probe_text::{Answer, Fields, ProbeError};

pub(crate) fn event_end(fields: &mut Fields, answer: &mut Answer) -> Result<(), ProbeError> {
    let version = fields.number()?;
    let primary = fields.number()?;
    let dependent = fields.number()?;
    let place = fields.number()?;
    let run = fields.bytes()?;
    fields.end()?;
    answer.count(events::event_end(&run, place, version, primary, dependent))
}

pub(crate) fn event_place(fields: &mut Fields, answer: &mut Answer) -> Result<(), ProbeError> {
    let version = fields.number()?;
    let primary = fields.number()?;
    let dependent = fields.number()?;
    let place = fields.number()?;
    let k = fields.number()?;
    let run = fields.bytes()?;
    fields.end()?;
    answer.count(events::event_place(&run, place, k, version, primary, dependent))
}
