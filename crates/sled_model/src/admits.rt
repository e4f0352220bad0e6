// What may stand for an operand of a constructor.
ghost use Rattle.std.specs.Prelude.{◌≡◌, ◌≤◌};
ghost use Rattle.token_bits.specs.Tokens.{AreTokens};
ghost use Rattle.sled_model.specs.Measures.{width_at};
ghost use Rattle.sled_model.specs.Kinds.{range_of, is_addend as is_addend_of, is_number_kind as is_number_kind_of, makes_type as makes_type_of, is_of_kind as is_of_kind_of, are_of_kinds as are_of_kinds_of, admits as admits_of};

use crate::{Instance, Operand, OperandKind, Spec, TypeId};
use token_bits::FieldId;

impl Spec {
    /// How many bits the field has, or 0 where there is no such field.
    fn width(&self, field: FieldId) -> u8
        requires { AreTokens self.now.tokens }
        ensures width { result ≡ width_at self.now.tokens field }
        ensures few { result ≤ 32 }
    {
        match self.tokens.field(field) {
            Some(field) => field.hi - field.lo + 1,
            None => 0,
        }
    }

    /// The least and the greatest number that an operand of the kind can be, or None for a typed one.
    pub fn range(&self, kind: &OperandKind) -> Option<(i64, i64)>
        requires { AreTokens self.now.tokens }
        ensures { result ≡ range_of self.now.tokens kind.now }
    {
        match kind {
            OperandKind::Plain(field) => Some((0, ((1u64 << self.width(*field)) - 1) as i64)),
            OperandKind::Extended(field) => {
                let half = 1u64 << self.width(*field).saturating_sub(1);
                Some((-(half as i64), (half - 1) as i64))
            }
            OperandKind::Typed(_) => None,
            OperandKind::Whole => Some((-0x4_0000_0000, 0x3_ffff_ffff)),
            OperandKind::Sliced => Some((0, 0xffff_ffff)),
        }
    }

    /// Whether at every level of the instance the constructor is known, the number of operands is the constructor's, and each operand
    /// is of its kind and type, where a number added to a label's address lies in -2^34 to 2^34 - 1. Takes no memory.
    #[cycle(admits)]
    pub fn admits(&self, instance: &Instance) -> bool
        ensures { result ≡ admits_of self.now instance.now }
    {
        match self.constructor(instance.constructor) {
            None => false,
            Some(constructor) => are_of_kinds(
                self,
                constructor.operands.as_slice(),
                instance.operands.as_slice(),
            ),
        }
    }
}

fn is_number_kind(kind: &OperandKind) -> bool
    ensures { result ≡ is_number_kind_of kind.now }
{
    match kind {
        OperandKind::Typed(_) => false,
        _ => true,
    }
}

fn is_addend(add: i64) -> bool
    ensures { result ≡ is_addend_of add }
{
    -0x4_0000_0000 <= add && add < 0x4_0000_0000
}

/// Whether the instance's constructor is of the type.
fn makes_type(spec: &Spec, of: TypeId, instance: &Instance) -> bool
    ensures { result ≡ makes_type_of spec.now of instance.now }
{
    match spec.constructor(instance.constructor) {
        None => false,
        Some(constructor) => match constructor.result {
            None => false,
            Some(result) => result.0 == of.0,
        },
    }
}

#[tactic(auto, using(crate::proofs::KindLaws::kind_laws))]
#[cycle(admits)]
fn is_of_kind(spec: &Spec, kind: &OperandKind, operand: &Operand) -> bool
    ensures { result ≡ is_of_kind_of spec.now kind.now operand.now }
{
    match operand {
        Operand::Num(_) => is_number_kind(kind),
        Operand::Place { add, .. } => is_number_kind(kind) && is_addend(*add),
        Operand::Sub(inner) => match kind {
            OperandKind::Typed(of) => {
                let inner = inner.get();
                makes_type(spec, *of, inner) && spec.admits(inner)
            }
            _ => false,
        },
    }
}

/// Whether there is one operand for each kind, and of that kind.
#[cycle(admits)]
fn are_of_kinds(spec: &Spec, kinds: &[OperandKind], operands: &[Operand]) -> bool
    ensures { result ≡ are_of_kinds_of spec.now kinds.now operands.now }
{
    let mut left = kinds;
    for operand in operands {
        let Some((kind, more)) = left.split_first() else {
            return false;
        };
        if !is_of_kind(spec, kind, operand) {
            return false;
        }
        left = more;
    }
    left.is_empty()
}
