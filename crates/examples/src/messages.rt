use message::draft::Draft;
use message::header::Header;
use std::test::Fail;

#[test]
fn a_data_message(rt: HostRuntime) -> Result<(), Fail> {
    let mut draft = Draft::new(Header::new(3, Some(0x0102), 0x0304)?);
    draft.add(&[0x7f])?;
    let sealed = draft.seal();
    assert!(rt; sealed.octets() == b"\x09\x03\x01\x02\x03\x04\x7f\x00\x95".as_slice());
    Ok(())
}

#[test]
fn an_empty_beacon(rt: HostRuntime) -> Result<(), Fail> {
    let sealed = Draft::new(Header::new(0, None, 1)?).seal();
    assert!(rt; sealed.octets() == b"\x06\x00\x00\x01\x00\x07".as_slice());
    Ok(())
}
