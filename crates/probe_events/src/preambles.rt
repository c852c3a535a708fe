// Preambles of scan events: the crate `event_preamble`.
ghost use Rattle.std.specs.Prelude.{◌≡◌, ◌++◌, OnOk};
ghost use Rattle.probe_events.specs.Text.{code as code_text, with_activation, with_settings};

use codes::Activation;
use event_preamble::ScanEventPreamble;
use probe_text::{Answer, Fields, ProbeError};

pub(crate) fn preamble_size(fields: &mut Fields, answer: &mut Answer) -> Result<(), ProbeError> {
    let version = fields.number()?;
    fields.end()?;
    answer.ok_number(event_preamble::size_for_version(version))
}

// A code as one field.
fn put_code(answer: &mut Answer, code: Option<u32>) -> Result<(), ProbeError>
    ensures { OnOk result (answer.new ≡ answer.old ++ code_text code) }
{
    match code {
        Some(code) => answer.number(code),
        None => answer.put(" -"),
    }
}

// An activation as one field.
pub(crate) fn put_activation(answer: &mut Answer, activation: Activation) -> Result<(), ProbeError>
    ensures { OnOk result (answer.new ≡ with_activation answer.old activation) }
{
    match activation {
        Activation::None => answer.number(0u64),
        Activation::HCD => answer.number(1u64),
        Activation::CID => answer.number(2u64),
        Activation::ETD => answer.number(3u64),
        Activation::EThcD => answer.number(4u64),
        Activation::Unknown(byte) => {
            answer.put(" 5:")?;
            answer.put_number(byte)
        }
    }
}

// The eleven fields of a preamble.
pub(crate) fn put_settings(
    answer: &mut Answer,
    settings: ScanEventPreamble,
) -> Result<(), ProbeError>
    ensures { OnOk result (answer.new ≡ with_settings answer.old settings) }
{
    put_code(answer, settings.polarity)?;
    put_code(answer, settings.scan_mode)?;
    put_code(answer, settings.ms_power)?;
    put_code(answer, settings.scan_type)?;
    answer.flag(settings.dependent)?;
    answer.flag(settings.dia)?;
    put_code(answer, settings.ionization)?;
    put_activation(answer, settings.activation)?;
    answer.number(settings.activation_byte)?;
    answer.flag(settings.wideband)?;
    put_code(answer, settings.analyzer)
}

pub(crate) fn preamble(fields: &mut Fields, answer: &mut Answer) -> Result<(), ProbeError> {
    let bytes = fields.bytes()?;
    fields.end()?;
    answer.ok()?;
    put_settings(answer, event_preamble::decode(&bytes))
}
