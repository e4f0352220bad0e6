// The actions of arms, appended to a text.
ghost use Rattle.std.specs.Prelude.{◌≡◌, ◌++◌, length, All, OnOk, OnErr};
ghost use Rattle.std.specs.List.{flat_map};
ghost use Rattle.asm_text.specs.Prefixes.{AppendsPrefix};
ghost use Rattle.asm_text.specs.Writable.{HasNoPlace, IsAdmitted, HasText};
ghost use Rattle.asm_text.specs.Actions.{NamesBelow, piece_text, action_text};

use crate::bytes::write_bytes;
use crate::instances::write_operand;
use sled_base::NoMemory;
use sled_model::{Arm, Operand, OperandList, Piece, Spec};
use std::alloc::Global;

/// Appends the arm's action to the text: its words as they stand, and in the place of a name the operand of its number, a number in
/// decimal or an instance.
///
/// Each name of the action is one of the arm's, and there is one operand for each of these. Each operand is a number, or an instance
/// that the description admits and that holds no address of a label at any level. `NoMemory` leaves the old text with a prefix of the
/// action's text behind it.
pub fn write_action(
    _alloc: Global,
    spec: &Spec,
    arm: &Arm,
    operands: &OperandList,
    text: &mut Vec<u8>,
) -> Result<(), NoMemory>
    requires named { All (NamesBelow (length arm.now.names)) arm.now.action }
    requires whole { length operands.now ≡ length arm.now.names }
    requires admitted { All (IsAdmitted spec.now) operands.now }
    requires resolved { All HasNoPlace operands.now }
    ensures written { OnOk result (text.new.items ≡ text.old.items ++ action_text spec.now arm.now operands.now) }
    ensures prefix { OnErr result (AppendsPrefix text.old.items text.new.items (action_text spec.now arm.now operands.now)) }
{
    write_pieces(spec, arm.action.as_slice(), operands.as_slice(), text)
}

fn write_pieces(
    spec: &Spec,
    pieces: &[Piece],
    operands: &[Operand],
    text: &mut Vec<u8>,
) -> Result<(), NoMemory>
    requires named { All (NamesBelow (length operands.now)) pieces.now }
    requires texts { All (HasText spec.now) operands.now }
    ensures written { OnOk result (text.new.items ≡ text.old.items ++ flat_map (piece_text spec.now operands.now) pieces.now) }
    ensures prefix { OnErr result (AppendsPrefix text.old.items text.new.items (flat_map (piece_text spec.now operands.now) pieces.now)) }
{
    for piece in pieces {
        write_piece(spec, piece, operands, text)?;
    }
    Ok(())
}

fn write_piece(
    spec: &Spec,
    piece: &Piece,
    operands: &[Operand],
    text: &mut Vec<u8>,
) -> Result<(), NoMemory>
    requires named { NamesBelow (length operands.now) piece.now }
    requires texts { All (HasText spec.now) operands.now }
    ensures written { OnOk result (text.new.items ≡ text.old.items ++ piece_text spec.now operands.now piece.now) }
    ensures prefix { OnErr result (AppendsPrefix text.old.items text.new.items (piece_text spec.now operands.now piece.now)) }
{
    match piece {
        Piece::Words(words) => write_bytes(words.as_slice(), text),
        Piece::Bound(k) => write_operand(spec, &operands[*k as usize], text),
    }
}
