// Bytes up to the limit.
use crate::ShortBytes;
use std::test::Fail;

#[test]
fn thirty_two_and_no_more(rt: HostRuntime) -> Result<(), Fail> {
    let mut bytes = ShortBytes::new();
    for byte in 0..32u8 {
        assert!(rt; bytes.push(byte));
    }
    assert!(rt; !bytes.push(32));
    assert_eq!(rt; bytes.as_slice().len(), 32);
    assert_eq!(rt; bytes.as_slice().first(), Some(&0));
    assert_eq!(rt; bytes.as_slice().last(), Some(&31));
    Ok(())
}
