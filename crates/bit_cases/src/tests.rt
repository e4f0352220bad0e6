// Worked cases.
use crate::ByteCase;
use std::test::Fail;

#[test]
fn bits_of_two_bytes(rt: HostRuntime) -> Result<(), Fail> {
    let case = ByteCase::at(1, &[0xF0, 0x0F], &[0x30, 0x05]);
    assert!(rt; case.meets(&[0, 0x3A, 0xB5]));
    assert!(rt; !case.meets(&[0, 0x4A, 0xB5]));
    assert!(rt; !case.meets(&[0, 0x3A]));
    assert!(rt; case.meets(&[0, 0x3A, 0xB5, 7]));
    Ok(())
}

#[test]
fn joined_at_the_longer(rt: HostRuntime) -> Result<(), Fail> {
    let high = ByteCase::at(0, &[0xF0], &[0x30]);
    let low = ByteCase::at(0, &[0x0F, 0xFF], &[0x05, 0x11]);
    let both = high.join(&low).ok_or("nothing in common")?;
    assert_eq!(rt; both.len, 2);
    assert!(rt; both.meets(&[0x35, 0x11]));
    assert!(rt; !both.meets(&[0x45, 0x11]));
    let longer = high.join(&ByteCase::any(3)).ok_or("nothing in common")?;
    assert_eq!(rt; longer.len, 3);
    let other = ByteCase::at(0, &[0x10], &[0x00]);
    assert!(rt; high.join(&other).is_none());
    Ok(())
}
