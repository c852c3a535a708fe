// Numbers of a run, floats and ten-thousandths: the crates `binary_reader`, `float_bits` and `float_ten_thousandths`.
use binary_reader::{Width, check_count_at, read_f64_le, read_u32_le};
use probe_text::{Answer, Fields, ProbeError};

// The number of one, two, four or eight bytes at a place, through a reader or by the functions of bytes.rs.
pub(crate) fn word(fields: &mut Fields, answer: &mut Answer) -> Result<(), ProbeError> {
    let size: u64 = fields.number()?;
    let place = fields.number()?;
    let run = fields.bytes()?;
    fields.end()?;
    let read = match size {
        1 => binary_reader::word_at(&run, place, Width::One),
        2 => binary_reader::word_at(&run, place, Width::Two),
        4 => read_u32_le(&run, place),
        8 => read_f64_le(&run, place),
        _ => return Err(ProbeError::Malformed),
    };
    answer.option(read.ok())
}

// A count, if the bytes left hold so many records of a size.
pub(crate) fn counted_list(fields: &mut Fields, answer: &mut Answer) -> Result<(), ProbeError> {
    let size = fields.number()?;
    let place: u64 = fields.number()?;
    let run = fields.bytes()?;
    fields.end()?;
    let Ok(count) = read_u32_le(&run, place) else {
        return answer.put("refused 1");
    };
    let beyond = place.saturating_add(4);
    if check_count_at(&run, beyond, count, size).is_err() {
        return answer.put("refused 1");
    }
    answer.ok_number(count)?;
    answer.number(beyond)
}

// For each format: a NaN has many patterns and one value, so only another number's bits go by way of its value.
fn bits_again64(bits: u64) -> u64 {
    if float_bits::is_nan64(bits) {
        bits
    } else {
        float_bits::bits_of_f64(float_bits::f64_of_bits(bits))
    }
}

fn bits_again32(bits: u32) -> u32 {
    if float_bits::is_nan32(bits) {
        bits
    } else {
        float_bits::bits_of_f32(float_bits::f32_of_bits(bits))
    }
}

pub(crate) fn float64(fields: &mut Fields, answer: &mut Answer) -> Result<(), ProbeError> {
    let bits = fields.number()?;
    fields.end()?;
    answer.ok()?;
    answer.flag(float_bits::is_nan64(bits))?;
    answer.flag(float_bits::is_finite64(bits))?;
    answer.bits(bits_again64(bits))
}

pub(crate) fn float32(fields: &mut Fields, answer: &mut Answer) -> Result<(), ProbeError> {
    let bits = fields.number()?;
    fields.end()?;
    answer.ok()?;
    answer.flag(float_bits::is_nan32(bits))?;
    answer.flag(float_bits::is_finite32(bits))?;
    answer.bits(bits_again32(bits))?;
    answer.bits(float_bits::widened(bits))
}

pub(crate) fn ten_thousandths(fields: &mut Fields, answer: &mut Answer) -> Result<(), ProbeError> {
    let bits = fields.number()?;
    fields.end()?;
    let mz = float_bits::f64_of_bits(bits);
    answer.count(float_ten_thousandths::ten_thousandths(mz))
}
