// Scan events: the crates `events` and `event_counted`.
ghost use Rattle.std.specs.Prelude.{◌≡◌, ◌≤◌, IfOk, OnOk, length};
ghost use Rattle.probe_events.specs.Text.{with_event, with_slices, with_window};

use crate::preambles;
use event_counted::read_counted_v66;
use event_record::{EventAndNext, ScanEvent};
use event_window::Window;
use probe_text::fields::{LENT, PREAMBLE};
use probe_text::{Answer, Fields, ProbeError};
use refusal::Refusal;

// The slices that are lent for an event: the fields P, Q, R and C.
#[derive(Drop)]
pub struct EventSlices {
    pub preamble: Vec<u8>,
    pub precursors: Vec<u64>,
    pub energies: Vec<u64>,
    pub coefficients: Vec<u64>,
}

impl EventSlices {
    pub fn lent(fields: &mut Fields) -> Result<EventSlices, ProbeError>
        ensures { IfOk result (λ s. (length s.preamble.items ≤ 256) × (length s.precursors.items ≤ 64) × (length s.energies.items ≤ 64) × (length s.coefficients.items ≤ 64)) }
    {
        Ok(EventSlices {
            preamble: fields.lent(PREAMBLE)?,
            precursors: fields.lent(LENT)?,
            energies: fields.lent(LENT)?,
            coefficients: fields.lent(LENT)?,
        })
    }

    pub fn put(&self, answer: &mut Answer) -> Result<(), ProbeError>
        ensures { OnOk result (answer.new ≡ with_slices answer.old self.now.preamble.items self.now.precursors.items self.now.energies.items self.now.coefficients.items) }
    {
        answer.slice(&self.preamble)?;
        answer.slice(&self.precursors)?;
        answer.slice(&self.energies)?;
        answer.slice(&self.coefficients)
    }
}

// Whether there is a window, and its floats.
fn put_window(answer: &mut Answer, window: Window) -> Result<(), ProbeError>
    ensures { OnOk result (answer.new ≡ with_window answer.old window) }
{
    match window {
        Window::Absent => {
            answer.flag(false)?;
            answer.bits(0u64)?;
            answer.bits(0u64)
        }
        Window::Ends(low, high) => {
            answer.flag(true)?;
            answer.bits(low)?;
            answer.bits(high)
        }
    }
}

// The fields of an event, and the place after it.
pub fn put_event(answer: &mut Answer, event: ScanEvent, next: u64) -> Result<(), ProbeError>
    ensures { OnOk result (answer.new ≡ with_event answer.old event next) }
{
    answer.number(event.preamble_len)?;
    answer.number(event.reactions)?;
    answer.number(event.coefficients)?;
    put_window(answer, event.window)?;
    answer.bits(event.low_mz)?;
    answer.bits(event.high_mz)?;
    preambles::put_settings(answer, event.preamble)?;
    preambles::put_activation(answer, event.activation)?;
    answer.number(next)
}

fn put_answer(answer: &mut Answer, read: Result<EventAndNext, Refusal>) -> Result<(), ProbeError> {
    match read {
        Ok(read) => {
            answer.ok()?;
            put_event(answer, read.event, read.next)
        }
        Err(refusal) => answer.refused(refusal),
    }
}

pub(crate) fn event(fields: &mut Fields, answer: &mut Answer) -> Result<(), ProbeError> {
    let version = fields.number()?;
    let primary = fields.number()?;
    let dependent = fields.number()?;
    let place = fields.number()?;
    let mut lent = EventSlices::lent(fields)?;
    let run = fields.bytes()?;
    fields.end()?;
    let read = events::read(
        &run,
        place,
        version,
        primary,
        dependent,
        &mut lent.preamble,
        &mut lent.precursors,
        &mut lent.energies,
        &mut lent.coefficients,
    );
    put_answer(answer, read)?;
    lent.put(answer)
}

pub(crate) fn counted(fields: &mut Fields, answer: &mut Answer) -> Result<(), ProbeError> {
    let size = fields.number()?;
    let place = fields.number()?;
    let mut lent = EventSlices::lent(fields)?;
    let run = fields.bytes()?;
    fields.end()?;
    let read = read_counted_v66(
        &run,
        place,
        size,
        &mut lent.preamble,
        &mut lent.precursors,
        &mut lent.energies,
        &mut lent.coefficients,
    );
    put_answer(answer, read)?;
    lent.put(answer)
}
