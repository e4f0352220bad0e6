// What a pattern stands among.
use sled_model::{Constructor, OperandKind};
use token_bits::Tokens;

/// What a pattern stands among: the constructors before, and the kinds of the operands of the body that it is in. In an arm there are
/// no operands.
#[derive(Clone, Copy)]
pub(crate) struct BodyContext<'a> {
    pub(crate) tokens: &'a Tokens,
    pub(crate) constructors: &'a [Constructor],
    pub(crate) kinds: &'a [OperandKind],
}
