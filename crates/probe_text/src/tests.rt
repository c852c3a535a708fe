// Values written by hand from docs/REQUESTS.md, and that calls which allocate succeed.
use super::*;
use lent::lent;
use refusal::{Part, Refusal};
use std::test::Fail;

#[test]
fn reads_a_field_of_each_kind(rt: HostRuntime) -> Result<(), Fail> {
    let line = "word 255 64 1 00ff - 0001000000000000 3412 000000000000f0bf 2 1";
    let mut fields = Fields::new(rt.alloc(), line);
    assert_eq!(rt; fields.text()?, "word");
    assert_eq!(rt; fields.number::<u8>()?, 255);
    assert_eq!(rt; fields.at_most(64)?, 64);
    assert!(rt; fields.flag()?);
    assert_eq!(rt; fields.bytes()?.as_slice(), [0, 255].as_slice());
    assert!(rt; fields.bytes_at_most(0)?.is_empty());
    assert_eq!(rt; fields.u64s()?.as_slice(), [256].as_slice());
    assert_eq!(rt; fields.u16s()?.as_slice(), [0x1234].as_slice());
    assert_eq!(rt; fields.f64s()?.as_slice(), [-1.0].as_slice());
    assert_eq!(rt;
        fields.lent::<u16>(2)?.as_slice(),
        [0xa5a0, 0xa5a1].as_slice()
    );
    assert!(rt; fields.end().is_err());
    assert_eq!(rt; fields.number::<usize>()?, 1);
    assert!(rt; fields.end().is_ok());
    assert_eq!(rt; fields.text(), Err(ProbeError::Malformed));
    Ok(())
}

#[test]
fn takes_numbers_and_bytes_up_to_their_limits(rt: HostRuntime) -> Result<(), Fail> {
    for (line, taken) in [
        ("18446744073709551615", true),
        ("00000000000000000007", true),
        ("18446744073709551616", false),
        ("000000000000000000007", false),
        ("+7", false),
        ("", false),
    ] {
        assert_eq!(rt;
            Fields::new(rt.alloc(), line).number::<u64>().is_ok(),
            taken,
            "at {line}"
        );
    }
    for (line, taken) in [
        ("0a0b", true),
        ("0a0b0c", false),
        ("0A", false),
        ("0", false),
        ("", false),
    ] {
        assert_eq!(rt;
            Fields::new(rt.alloc(), line).bytes_at_most(2).is_ok(),
            taken,
            "at {line}"
        );
    }
    assert!(rt; Fields::new(rt.alloc(), "65").at_most(64).is_err());
    assert!(rt; Fields::new(rt.alloc(), "2").flag().is_err());
    assert!(rt; Fields::new(rt.alloc(), "010203").u16s().is_err());
    assert!(rt; Fields::new(rt.alloc(), "3").lent::<u8>(2).is_err());
    Ok(())
}

#[test]
fn writes_an_answer_of_each_kind(rt: HostRuntime) -> Result<(), Fail> {
    let mut answer = Answer::new(rt.alloc());
    answer.malformed()?;
    assert_eq!(rt; answer.as_str(), "?");
    answer.clear();
    answer.ok()?;
    answer.number(136u8)?;
    answer.flag(true)?;
    answer.bits(10u16)?;
    answer.bits(-1.0)?;
    answer.put(" 5:")?;
    answer.put_number(9u8)?;
    answer.bytes(&[0, 171])?;
    answer.bytes(&[])?;
    answer.slice(&[1u32, 0xffff])?;
    assert_eq!(rt;
        answer.as_str(),
        "ok 136 1 000a bff0000000000000 5:9 00ab - | 00000001 0000ffff"
    );
    answer.clear();
    answer.option(Some(3u8))?;
    answer.option(None::<u8>)?;
    answer.name(Ok(3), b"HCD")?;
    answer.name(Ok(0), &[165])?;
    assert_eq!(rt; answer.as_str(), "ok 3noneok 3 | 48 43 44none | a5");
    answer.clear();
    answer.count(Ok(2))?;
    answer.count(Err(Refusal::Short(Part::Index)))?;
    answer.refused(Refusal::InvalidPrecursorMz { place: 7, bits: 5 })?;
    answer.name(Err(Refusal::NoRoom), &[])?;
    assert_eq!(rt;
        answer.as_str(),
        "ok 2refused 1 2refused 3 7 0000000000000005refused 8 |"
    );
    Ok(())
}

#[test]
fn lends_slices_of_each_element(rt: HostRuntime) -> Result<(), Fail> {
    let mut answer = Answer::new(rt.alloc());
    answer.slice(&lent::<u8>(rt.alloc(), 2)?)?;
    answer.slice(&lent::<u16>(rt.alloc(), 2)?)?;
    answer.slice(&lent::<u32>(rt.alloc(), 2)?)?;
    answer.slice(&lent::<u64>(rt.alloc(), 1)?)?;
    answer.slice(&lent::<f64>(rt.alloc(), 1)?)?;
    assert_eq!(rt;
        answer.as_str(),
        " | a5 a6 | a5a0 a5a1 | a5a50000 a5a50001 | a5a5a5a500000000 | a5a5a5a500000000"
    );
    // 165 + 91 is 256.
    assert_eq!(rt; lent::<u8>(rt.alloc(), 92)?.last(), Some(&0));
    Ok(())
}
