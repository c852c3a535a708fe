// A scan event's record as the fields of a request, in the order of `event`'s answer.
use codes::Activation;
use event_preamble::ScanEventPreamble;
use event_record::ScanEvent;
use event_window::Window;
use float_bits::f64_of_bits;
use probe_text::{Fields, ProbeError};

// 0 for none, else a code and 1.
fn code(fields: &mut Fields) -> Result<Option<u32>, ProbeError> {
    let value = fields.at_most(0x1_0000_0000)?;
    Ok(value.checked_sub(1).map(|code| code as u32))
}

// 0 for none, 1 to 4, and from 5 on an unknown byte.
fn activation(fields: &mut Fields) -> Result<Activation, ProbeError> {
    let value = fields.at_most(260)?;
    Ok(match value {
        0 => Activation::None,
        1 => Activation::HCD,
        2 => Activation::CID,
        3 => Activation::ETD,
        4 => Activation::EThcD,
        other => Activation::Unknown((other - 5) as u8),
    })
}

// All that a preamble gives.
fn settings(fields: &mut Fields) -> Result<ScanEventPreamble, ProbeError> {
    Ok(ScanEventPreamble {
        polarity: code(fields)?,
        scan_mode: code(fields)?,
        ms_power: code(fields)?,
        scan_type: code(fields)?,
        dependent: fields.flag()?,
        dia: fields.flag()?,
        ionization: code(fields)?,
        activation: activation(fields)?,
        activation_byte: fields.number()?,
        wideband: fields.flag()?,
        analyzer: code(fields)?,
    })
}

// Whether there is a window, and its floats, which are given where there is none too.
fn window(fields: &mut Fields) -> Result<Window, ProbeError> {
    let present = fields.flag()?;
    let low = fields.number()?;
    let high = fields.number()?;
    if !present {
        return Ok(Window::Absent);
    }
    Ok(Window::Ends(f64_of_bits(low), f64_of_bits(high)))
}

pub(crate) fn event(fields: &mut Fields) -> Result<ScanEvent, ProbeError> {
    Ok(ScanEvent {
        preamble_len: fields.number()?,
        reactions: fields.number()?,
        coefficients: fields.number()?,
        window: window(fields)?,
        low_mz: fields.number()?,
        high_mz: fields.number()?,
        preamble: settings(fields)?,
        activation: activation(fields)?,
    })
}
