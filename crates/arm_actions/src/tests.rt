use crate::pieces_of_action;
use sled_model::Piece;
use std::test::Fail;
use tree_meaning::NameTable;

#[test]
fn words_and_a_name(rt: HostRuntime) -> Result<(), Fail> {
    let mut names = NameTable::new(rt.alloc());
    names.add(b"v")?;
    let found = pieces_of_action(rt.alloc(), &names, b"\"load {v}\"")?;
    let Some(pieces) = found else {
        return Err(Fail::new("the name is refused"));
    };
    assert_eq!(rt; pieces.len(), 2);
    assert!(rt; matches!(pieces.get(1), Some(Piece::Bound(0))));
    Ok(())
}
