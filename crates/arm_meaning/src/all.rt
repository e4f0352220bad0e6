// The arms that `match all` stands for.
ghost use Rattle.std.specs.Prelude.{◌≡◌, ◌++◌, IfOk, OnOk};
ghost use Rattle.sled_model.specs.Specs.{IsSpec};
ghost use Rattle.arm_meaning.specs.All as of;

use sled_base::NoMemory;
use sled_model::{
    Argument, ArgumentList, Arm, ArmList, Constructor, ConstructorId, Name, NameList, Pattern,
    Piece, PieceList, Spec,
};
use std::alloc::Global;

/// The arms that `match all` stands for: one for each constructor of an instruction, in the order of declaration, whose action writes
/// the instance that it matched. `NoMemory` also where a constructor has more than 2^32 - 1 operands, since a name has a number of 32
/// bits.
pub fn all_arms(alloc: Global, spec: &Spec) -> Result<ArmList, NoMemory>
    requires { IsSpec spec.now }
    ensures { IfOk result (λ arms. arms ≡ of.all_arms spec.now) }
{
    let mut arms = ArmList::new(alloc);
    for (number, constructor) in spec.constructors.as_slice().iter().enumerate() {
        push_arm(alloc, ConstructorId(number as u32), constructor, &mut arms)?;
    }
    Ok(arms)
}

// Appends the arm of the constructor, where it makes instructions.
fn push_arm(
    alloc: Global,
    id: ConstructorId,
    constructor: &Constructor,
    arms: &mut ArmList,
) -> Result<(), NoMemory>
    ensures { OnOk result (arms.new ≡ arms.old ++ of.arm_by_result constructor.now.result (of.arm_that_writes id constructor.now)) }
{
    match constructor.result {
        Some(_) => Ok(()),
        None => {
            arms.push(arm_that_writes(alloc, id, constructor)?)?;
            Ok(())
        }
    }
}

fn arm_that_writes(
    alloc: Global,
    id: ConstructorId,
    constructor: &Constructor,
) -> Result<Arm, NoMemory>
    ensures { IfOk result (λ arm. arm ≡ of.arm_that_writes id constructor.now) }
{
    let Ok(count) = u32::try_from(constructor.names.len()) else {
        return Err(NoMemory);
    };
    Ok(Arm {
        pattern: Pattern::Apply {
            constructor: id,
            arguments: first_names(alloc, count)?,
        },
        names: copied(alloc, constructor.names.as_slice())?,
        action: written_pieces(alloc, constructor.name.as_slice(), count)?,
    })
}

// So many names, in order.
fn first_names(alloc: Global, count: u32) -> Result<ArgumentList, NoMemory>
    ensures { IfOk result (λ names. names ≡ of.first_names count) }
{
    let mut names = ArgumentList::new(alloc);
    for number in 0..count {
        names.push(Argument::Name(number))?;
    }
    Ok(names)
}

// Equal names.
fn copied(alloc: Global, names: &[Name]) -> Result<NameList, NoMemory>
    ensures { IfOk result (λ copies. copies ≡ names.now) }
{
    let mut copies = NameList::new(alloc);
    for name in names {
        copies.push(Name::from_slice(alloc, name.as_slice())?)?;
    }
    Ok(copies)
}

// The pieces of `name({a}, {b})`, with so many names.
fn written_pieces(alloc: Global, name: &[u8], count: u32) -> Result<PieceList, NoMemory>
    ensures { IfOk result (λ pieces. pieces ≡ of.written_pieces name.now count) }
{
    let mut pieces = PieceList::new(alloc);
    if count == 0 {
        pieces.push(Piece::Words(words(alloc, name, b"()")?))?;
        return Ok(pieces);
    }
    for number in 0..count {
        pieces.push(Piece::Words(words_before(alloc, name, number)?))?;
        pieces.push(Piece::Bound(number))?;
    }
    pieces.push(Piece::Words(words(alloc, b")", b"")?))?;
    Ok(pieces)
}

// The words before the name of this number: the constructor's name and a parenthesis, or else a comma.
fn words_before(alloc: Global, name: &[u8], number: u32) -> Result<Name, NoMemory>
    ensures { IfOk result (λ words. words ≡ of.words_before name.now number) }
{
    if number == 0 {
        words(alloc, name, b"(")
    } else {
        words(alloc, b", ", b"")
    }
}

// The bytes of both, one behind the other.
fn words(alloc: Global, front: &[u8], behind: &[u8]) -> Result<Name, NoMemory>
    ensures { IfOk result (λ words. words ≡ front.now ++ behind.now) }
{
    let mut words = Vec::from_slice(alloc, front)?;
    words.extend_from_slice(behind)?;
    Ok(Name::from_vec(words))
}
