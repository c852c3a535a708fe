// The request words.
use crate::lines::LONGEST;
use probe_text::{Answer, Fields, ProbeError};
use std::alloc::Global;

pub(crate) fn answer_request(
    alloc: Global,
    line: &[u8],
    answer: &mut Answer,
) -> Result<(), ProbeError> {
    // No request has another byte than ASCII has, and this takes half as long as the test of UTF-8.
    if LONGEST < line.len() || !line.is_ascii() {
        return Err(ProbeError::Malformed);
    }
    let line = unsafe { str::from_utf8_unchecked(line) };
    let mut fields = Fields::new(alloc, line);
    let word = fields.text()?;
    if probe_requests::try_answer(word, &mut fields, answer)?
        || probe_trays::try_answer(word, &mut fields, answer)?
    {
        return Ok(());
    }
    Err(ProbeError::Malformed)
}
