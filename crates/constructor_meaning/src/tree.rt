// The declaration of a constructor, in its parts.
use sled_parser::tree::{EqTreeList, OperandTreeList, PatternTree, Spelling};

/// `opcode(operands) : result { equations } is body`
#[derive(Clone, Copy)]
pub struct ConstructorTree<'a> {
    pub opcode: &'a Spelling,
    pub operands: &'a OperandTreeList,
    pub result: &'a Option<Spelling>,
    pub equations: &'a EqTreeList,
    pub body: &'a PatternTree,
}
