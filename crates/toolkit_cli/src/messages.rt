// What goes to the notes.
ghost use Rattle.std.specs.Prelude.{◌≡◌, ◌≤◌, IfOk, string_bytes};
ghost use Rattle.toolkit_cli.specs.Messages as of;

use std::alloc::{AllocError, Global};

/// What a condition is unmet by.
#[derive(Clone, Copy, Debug, PartialEq, Eq)]
pub enum Unit {
    Declaration,
    Arm,
}

/// Why a text or the input does not serve. A place counts bytes of the text, from 0; a declaration or an arm has its number, from 1.
#[derive(Clone, Copy, Debug, PartialEq, Eq)]
pub enum Problem {
    /// It cannot be read.
    Unread,
    /// The text has more than 1,048,576 bytes.
    TooLong,
    /// The byte at this place begins no lexeme, or stands in an open Text and may not.
    BadByte(u32),
    /// The Text that begins at this place is not closed.
    OpenText(u32),
    /// The Number that begins at this place is above 4,294,967,295.
    NumberTooBig(u32),
    /// The lexemes are no sentence of the grammar.
    Syntax,
    /// The bracket at this place opens inside 64 others.
    Nesting(u32),
    /// The first that does not meet a condition, and the first condition that it does not meet.
    Unmet {
        unit: Unit,
        number: u64,
        condition: u8,
    },
    /// No arm matches at this address.
    NoMatch(u64),
    /// At the place of this address a byte stands at 2^32 or above.
    AddressEnd(u64),
}

impl Problem {
    /// The number by which the user finds it in the documents.
    pub fn number(self) -> u8
        ensures { result ≡ of.problem_number self }
    {
        match self {
            Problem::Unread => 1,
            Problem::TooLong => 2,
            Problem::BadByte(_) => 3,
            Problem::OpenText(_) => 4,
            Problem::NumberTooBig(_) => 5,
            Problem::Syntax => 6,
            Problem::Nesting(_) => 7,
            Problem::Unmet { .. } => 8,
            Problem::NoMatch(_) => 9,
            Problem::AddressEnd(_) => 10,
        }
    }
}

/// The line of the notes: the name of the text or of the input, the number, and what is the matter.
pub fn message(alloc: Global, name: &str, problem: Problem) -> Result<String, AllocError>
    ensures { IfOk result (λ s. string_bytes s ≡ of.message name.now problem) }
{
    let number = problem.number();
    let text = problem_text(alloc, problem)?;
    let text = text.as_str();
    format!(in alloc; "{name}: error {number}: {text}\n")
}

fn problem_text(alloc: Global, problem: Problem) -> Result<String, AllocError>
    ensures { IfOk result (λ s. string_bytes s ≡ of.problem_text problem) }
{
    match problem {
        Problem::Unread => String::from_str(alloc, "cannot be read"),
        Problem::TooLong => String::from_str(alloc, "text has more than 1048576 bytes"),
        Problem::BadByte(place) => format!(in alloc; "byte not allowed at {place}"),
        Problem::OpenText(place) => format!(in alloc; "text not closed at {place}"),
        Problem::NumberTooBig(place) => format!(in alloc; "number too large at {place}"),
        Problem::Syntax => String::from_str(alloc, "syntax"),
        Problem::Nesting(place) => format!(in alloc; "brackets nested deeper than 64 at {place}"),
        Problem::Unmet {
            unit,
            number,
            condition,
        } => unmet_text(alloc, unit, number, condition),
        Problem::NoMatch(address) => no_match_text(alloc, address),
        Problem::AddressEnd(address) => address_end_text(alloc, address),
    }
}

fn unmet_text(alloc: Global, unit: Unit, number: u64, condition: u8) -> Result<String, AllocError>
    ensures { IfOk result (λ s. string_bytes s ≡ of.unmet_text unit number condition) }
{
    let unit = unit_text(unit);
    format!(in alloc; "{unit} {number} does not meet condition {condition}")
}

#[tactic(auto, using(crate::proofs::Addresses::eight_digits))]
fn no_match_text(alloc: Global, address: u64) -> Result<String, AllocError>
    ensures { IfOk result (λ s. string_bytes s ≡ of.no_match_text address) }
{
    format!(in alloc; "no arm matches at {address:08x}")
}

#[tactic(auto, using(crate::proofs::Addresses::eight_digits))]
fn address_end_text(alloc: Global, address: u64) -> Result<String, AllocError>
    ensures { IfOk result (λ s. string_bytes s ≡ of.address_end_text address) }
{
    format!(in alloc; "address 2^32 reached at {address:08x}")
}

fn unit_text(unit: Unit) -> &'static str
    ensures { result.now ≡ of.unit_text unit }
{
    match unit {
        Unit::Declaration => "declaration",
        Unit::Arm => "arm",
    }
}
