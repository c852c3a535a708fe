// Codes, their names and symbols: the crate `codes`.
use codes::{Activation, Family};
use probe_text::fields::LENT;
use probe_text::{Answer, Fields, ProbeError};

// The fields FAMILY and VALUE.
fn family_and_value(fields: &mut Fields) -> Result<(Family, u32), ProbeError> {
    let family = match fields.number::<u64>()? {
        0 => Family::Analyzer,
        1 => Family::Polarity,
        2 => Family::ScanMode,
        3 => Family::MsPower,
        4 => Family::ScanType,
        5 => Family::Ionization,
        6 => Family::GenericType,
        _ => return Err(ProbeError::Malformed),
    };
    let value = match family {
        Family::GenericType => fields.number::<u32>()?,
        _ => u32::from(fields.number::<u8>()?),
    };
    Ok((family, value))
}

pub(crate) fn code(fields: &mut Fields, answer: &mut Answer) -> Result<(), ProbeError> {
    let (family, value) = family_and_value(fields)?;
    fields.end()?;
    answer.option(codes::decode(family, value))
}

pub(crate) fn symbol(fields: &mut Fields, answer: &mut Answer) -> Result<(), ProbeError> {
    let (family, code) = family_and_value(fields)?;
    fields.end()?;
    answer.option(codes::symbol(family, code))
}

pub(crate) fn name(fields: &mut Fields, answer: &mut Answer) -> Result<(), ProbeError> {
    let (family, code) = family_and_value(fields)?;
    let mut lent = fields.lent::<u8>(LENT)?;
    fields.end()?;
    let written = codes::as_str(family, code, &mut lent);
    answer.name(written, &lent)
}

pub(crate) fn activation(fields: &mut Fields, answer: &mut Answer) -> Result<(), ProbeError> {
    let byte = fields.number()?;
    fields.end()?;
    match Activation::from_byte(byte) {
        Activation::None => answer.none(),
        Activation::HCD => answer.ok_number(1u64),
        Activation::CID => answer.ok_number(2u64),
        Activation::ETD => answer.ok_number(3u64),
        Activation::EThcD => answer.ok_number(4u64),
        Activation::Unknown(byte) => {
            answer.ok_number(5u64)?;
            answer.number(byte)
        }
    }
}

pub(crate) fn activation_name(fields: &mut Fields, answer: &mut Answer) -> Result<(), ProbeError> {
    let activation = match fields.number::<u64>()? {
        0 => Activation::None,
        1 => Activation::HCD,
        2 => Activation::CID,
        3 => Activation::ETD,
        4 => Activation::EThcD,
        // The name does not depend on the byte.
        5 => Activation::Unknown(0),
        _ => return Err(ProbeError::Malformed),
    };
    let mut lent = fields.lent::<u8>(LENT)?;
    fields.end()?;
    let written = activation.as_str(&mut lent);
    answer.name(written, &lent)
}

pub(crate) fn fixed_size(fields: &mut Fields, answer: &mut Answer) -> Result<(), ProbeError> {
    let value = fields.number()?;
    fields.end()?;
    answer.option(codes::fixed_size(value))
}
