// The lines that the sample in the gate does not have.
use crate::report;
use std::test::Fail;

#[test]
fn structure(rt: HostRuntime) -> Result<(), Fail> {
    let mut bytes = [0u8; 36];
    bytes[0] = 0xa5;
    bytes[1] = 0x06;
    bytes[2] = 0x12;
    bytes[34] = 0x49;
    bytes[35] = 0xb6;
    let text = report(rt.alloc(), &bytes)?;
    assert_eq!(rt; text.as_str(), "Aquadopp structure: id 06, length 36\n");
    bytes[35] = 0xb7;
    let text = report(rt.alloc(), &bytes)?;
    assert_eq!(rt;
        text.as_str(),
        "refused 19 frame 0: the structure's checksum does not agree with the bytes before it\n"
    );
    Ok(())
}

#[test]
fn nothing(rt: HostRuntime) -> Result<(), Fail> {
    let text = report(rt.alloc(), &[])?;
    assert_eq!(rt;
        text.as_str(),
        "refused 1 frame 0: there are too few bytes for a PD0 header\n"
    );
    Ok(())
}

#[test]
fn noise(rt: HostRuntime) -> Result<(), Fail> {
    let text = report(rt.alloc(), &[0x7f, 0x55, 0, 0, 0, 0])?;
    assert_eq!(rt;
        text.as_str(),
        "refused 2 frame 2: a PD0 ensemble begins with two bytes 7F, and this byte is another\n"
    );
    Ok(())
}
