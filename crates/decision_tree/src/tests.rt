// Worked cases.
use crate::{Bits, CaseNo, Node, NodeNo, Peek, build, build_within};
use bit_cases::ByteCase;
use std::test::Fail;

/// A first byte of 1 with four bytes of anything behind it, and a first byte of 1.
fn long_and_short() -> [ByteCase; 2] {
    [
        ByteCase::at(0, &[0xFF, 0, 0, 0, 0], &[0x01, 0, 0, 0, 0]),
        ByteCase::at(0, &[0xFF], &[0x01]),
    ]
}

#[test]
fn no_bit_may_be_tested(rt: HostRuntime) -> Result<(), Fail> {
    let cases = long_and_short();
    let Ok(tree) = build_within(rt.alloc(), &cases, 0) else {
        return Err("no memory".into());
    };
    assert_eq!(rt; tree.tests(), 0);
    assert!(rt; matches!(tree.node(tree.root()), Some(Node::Check { .. })));
    assert_eq!(rt; tree.cases().len(), 2);
    assert_eq!(rt; tree.case(CaseNo(1)).map(|case| case.len), Some(1));
    Ok(())
}

#[test]
fn two_tests_decide(rt: HostRuntime) -> Result<(), Fail> {
    let cases = long_and_short();
    let Ok(tree) = build_within(rt.alloc(), &cases, 16) else {
        return Err("no memory".into());
    };
    for number in 0..tree.len() {
        assert!(rt; !matches!(tree.node(NodeNo(number)), Some(Node::Check { .. })));
    }
    let Some(Node::Test { kids, .. }) = tree.node(tree.root()) else {
        return Err("the root is no Test".into());
    };
    let behind = kids.get(1).ok_or("no kid")?;
    assert!(rt; matches!(tree.node(behind), Some(Node::Test { .. })));
    assert_eq!(rt; kids.len(), 256);
    let mut short = Peek::new(&[1, 0, 0, 0]);
    assert_eq!(rt; tree.decide(&mut short), Some(CaseNo(1)));
    assert!(rt; short.asked() <= 2);
    assert_eq!(rt; short.window().len(), 4);
    let mut long = Peek::new(&[1, 0, 0, 0, 0]);
    assert_eq!(rt; tree.decide(&mut long), Some(CaseNo(0)));
    assert!(rt; long.asked() <= 2);
    Ok(())
}

#[test]
fn tests_and_checks_agree(rt: HostRuntime) -> Result<(), Fail> {
    let cases = [
        ByteCase::at(1, &[0xF0], &[0x30]),
        ByteCase::at(0, &[0x0F, 0x81], &[0x05, 0x80]),
        ByteCase::any(1),
    ];
    let Ok(tests) = build(rt.alloc(), &cases) else {
        return Err("no memory".into());
    };
    let Ok(checks) = build_within(rt.alloc(), &cases, 0) else {
        return Err("no memory".into());
    };
    let windows: [&[u8]; 6] = [
        &[],
        &[0x05],
        &[0x05, 0x3A],
        &[0x25, 0x82],
        &[0x25, 0x83],
        &[0x25, 0x82, 0x07],
    ];
    let answers = [None, Some(2), Some(0), Some(1), Some(2), Some(1)];
    for k in 0..6 {
        let answer = answers[k].map(CaseNo);
        assert_eq!(rt; tests.decide(&mut Peek::new(windows[k])), answer);
        assert_eq!(rt; checks.decide(&mut Peek::new(windows[k])), answer);
    }
    Ok(())
}
