// Texts that are read, and what goes to the notes.
ghost use Rattle.std.specs.Prelude.{◌≡◌, ◌≢◌, ◌≤◌, ℕ, List, All, false, length, IfOk, IfErr, IsErrOf};
ghost use Rattle.std.specs.Option.{ForSome};
ghost use Rattle.sled_base.specs.Causes.{Rose};
ghost use Rattle.match_meaning.specs.Matchable.{IsMatchable};
ghost use Rattle.sled_elab.specs.Descriptions.{described_in, HasNumbersInRange, IsReadOnce, IsSound};
ghost use Rattle.sled_parser.specs.Declarations.{IsDescription};
ghost use Rattle.toolkit_cli.specs.Messages.{message as message_of};
ghost use Rattle.toolkit_cli.specs.Texts as of;
ghost use Rattle.toolkit_cli.specs.Told.{Told};

use crate::messages::{Problem, Unit, message};
use crate::status::Status;
use sled_base::{MAX_TEXT, Shelf, Sink, TextFault, load_text, write_all};
use sled_elab::{Description, ElabFault, describe};
use sled_lexer::{LexFault, lex};
use sled_model::Statement;
use sled_parser::tree::Decl;
use sled_parser::{SyntaxFault, parse_match, parse_spec};
use statement_building::{StatementFault, elaborate_match};
use std::alloc::Global;

/// Why a text does not serve.
#[derive(Clone, Copy, Debug, PartialEq, Eq)]
pub enum TextStop {
    Unread,
    Refused(Problem),
    NoMemory,
}

/// The declarations that the text of a name spells.
pub fn read_decls<H: Shelf>(alloc: Global, shelf: &mut H, name: &str) -> Result<Vec<Decl>, TextStop>
    ensures made { IfOk result (λ decls. ForSome (H.text shelf.old name.now) (λ t. of.IsParsed IsDescription t decls.items)) }
    ensures numbers { IfOk result (λ decls. All HasNumbersInRange decls.items) }
    ensures refused { IfErr result (λ stop. ForSome (H.text shelf.old name.now) (λ t. of.Stops of.RefusesDescription t stop)) }
    ensures there { IfOk result (λ _. H.lacks shelf.old name.now ≡ false) }
    ensures stops { IfErr result (of.StopsThere (H.lacks shelf.old name.now)) }
    ensures unread { IsErrOf result TextStop.Unread → Rose (H.faults shelf.old name.now) (H.faults shelf.new name.now) }
    ensures later { (any : List ℕ) → H.faults shelf.old any ≤ H.faults shelf.new any }
    ensures others { (other : List ℕ) → other ≢ name.now → H.faults shelf.new other ≡ H.faults shelf.old other }
    ensures texts { (any : List ℕ) → H.text shelf.new any ≡ H.text shelf.old any }
    ensures absent { (any : List ℕ) → H.lacks shelf.new any ≡ H.lacks shelf.old any }
{
    match load_text(alloc, shelf, name) {
        Ok(text) => parsed(alloc, &text),
        Err(fault) => Err(not_loaded(fault)),
    }
}

/// The description that declarations make: that of each text that spells them, or why each such text is refused.
pub fn described<'a>(alloc: Global, decls: &'a [Decl]) -> Result<Description<'a>, TextStop>
    requires { All HasNumbersInRange decls.now }
    ensures made { IfOk result (λ d. (t : List ℕ) → of.IsParsed IsDescription t decls.now → of.IsDescribed t (described_in d)) }
    ensures sound { IfOk result (λ d. IsSound (described_in d)) }
    ensures read { IfOk result (λ d. IsReadOnce d.spec) }
    ensures refused { IfErr result (λ stop. (t : List ℕ) → of.IsParsed IsDescription t decls.now → of.Stops of.RefusesDescription t stop) }
    ensures loaded { IfErr result (λ stop. stop ≢ TextStop.Unread) }
{
    match describe(alloc, decls) {
        Ok(description) => Ok(description),
        Err(fault) => Err(not_described(fault)),
    }
}

/// The statement that the text of a name makes over a description. It can be matched.
pub fn read_statement<H: Shelf>(
    alloc: Global,
    shelf: &mut H,
    description: &Description<'_>,
    name: &str,
) -> Result<Statement, TextStop>
    requires sound { IsSound (described_in description.now) }
    requires read { IsReadOnce description.now.spec }
    ensures made { IfOk result (λ statement. ForSome (H.text shelf.old name.now) (λ t. of.IsStated (described_in description.now) t statement)) }
    ensures matchable { IfOk result (IsMatchable description.now.spec) }
    ensures refused { IfErr result (λ stop. ForSome (H.text shelf.old name.now) (λ t. of.Stops (of.RefusesStatement (described_in description.now)) t stop)) }
    ensures there { IfOk result (λ _. H.lacks shelf.old name.now ≡ false) }
    ensures stops { IfErr result (of.StopsThere (H.lacks shelf.old name.now)) }
    ensures unread { IsErrOf result TextStop.Unread → Rose (H.faults shelf.old name.now) (H.faults shelf.new name.now) }
    ensures later { (any : List ℕ) → H.faults shelf.old any ≤ H.faults shelf.new any }
    ensures others { (other : List ℕ) → other ≢ name.now → H.faults shelf.new other ≡ H.faults shelf.old other }
    ensures texts { (any : List ℕ) → H.text shelf.new any ≡ H.text shelf.old any }
    ensures absent { (any : List ℕ) → H.lacks shelf.new any ≡ H.lacks shelf.old any }
{
    match load_text(alloc, shelf, name) {
        Ok(text) => stated(alloc, description, &text),
        Err(fault) => Err(not_loaded(fault)),
    }
}

fn parsed(alloc: Global, text: &[u8]) -> Result<Vec<Decl>, TextStop>
    requires { length text.now ≤ MAX_TEXT }
    ensures made { IfOk result (λ decls. of.IsParsed IsDescription text.now decls.items) }
    ensures numbers { IfOk result (λ decls. All HasNumbersInRange decls.items) }
    ensures refused { IfErr result (of.Stops of.RefusesDescription text.now) }
    ensures loaded { IfErr result (λ stop. stop ≢ TextStop.Unread) }
{
    let lexemes = match lex(alloc, text) {
        Ok(lexemes) => lexemes,
        Err(fault) => return Err(not_lexed(fault)),
    };
    match parse_spec(alloc, text, lexemes.as_slice()) {
        Ok(decls) => Ok(decls),
        Err(fault) => Err(not_parsed(fault)),
    }
}

fn stated(alloc: Global, description: &Description<'_>, text: &[u8]) -> Result<Statement, TextStop>
    requires short { length text.now ≤ MAX_TEXT }
    requires sound { IsSound (described_in description.now) }
    requires read { IsReadOnce description.now.spec }
    ensures made { IfOk result (of.IsStated (described_in description.now) text.now) }
    ensures matchable { IfOk result (IsMatchable description.now.spec) }
    ensures refused { IfErr result (of.Stops (of.RefusesStatement (described_in description.now)) text.now) }
    ensures loaded { IfErr result (λ stop. stop ≢ TextStop.Unread) }
{
    let lexemes = match lex(alloc, text) {
        Ok(lexemes) => lexemes,
        Err(fault) => return Err(not_lexed(fault)),
    };
    let tree = match parse_match(alloc, text, lexemes.as_slice()) {
        Ok(tree) => tree,
        Err(fault) => return Err(not_parsed(fault)),
    };
    match elaborate_match(alloc, &description.spec, &description.scope, &tree) {
        Ok(statement) => Ok(statement),
        Err(fault) => Err(not_stated(fault)),
    }
}

fn not_loaded(fault: TextFault) -> TextStop
    ensures { result ≡ of.load_stop fault }
{
    match fault {
        TextFault::TooLong => TextStop::Refused(Problem::TooLong),
        TextFault::Unread => TextStop::Unread,
        TextFault::NoMemory => TextStop::NoMemory,
    }
}

fn not_lexed(fault: LexFault) -> TextStop
    ensures { result ≡ of.lex_stop fault }
{
    match fault {
        LexFault::BadByte(place) => TextStop::Refused(Problem::BadByte(place)),
        LexFault::OpenText(place) => TextStop::Refused(Problem::OpenText(place)),
        LexFault::NumberTooBig(place) => TextStop::Refused(Problem::NumberTooBig(place)),
        LexFault::NoMemory => TextStop::NoMemory,
    }
}

fn not_parsed(fault: SyntaxFault) -> TextStop
    ensures { result ≡ of.syntax_stop fault }
{
    match fault {
        SyntaxFault::Nesting(place) => TextStop::Refused(Problem::Nesting(place)),
        SyntaxFault::Syntax => TextStop::Refused(Problem::Syntax),
        SyntaxFault::NoMemory => TextStop::NoMemory,
    }
}

fn not_described(fault: ElabFault) -> TextStop
    ensures { result ≡ of.elab_stop fault }
{
    match fault {
        ElabFault::Unmet {
            declaration,
            condition,
        } => TextStop::Refused(Problem::Unmet {
            unit: Unit::Declaration,
            number: declaration,
            condition,
        }),
        ElabFault::NoMemory => TextStop::NoMemory,
    }
}

fn not_stated(fault: StatementFault) -> TextStop
    ensures { result ≡ of.statement_stop fault }
{
    match fault {
        StatementFault::Unmet { arm, condition } => TextStop::Refused(Problem::Unmet {
            unit: Unit::Arm,
            number: arm,
            condition,
        }),
        StatementFault::NoMemory => TextStop::NoMemory,
    }
}

/// Writes the message, and answers the status that is wanted.
pub fn tell<E: Sink>(
    alloc: Global,
    name: &str,
    problem: Problem,
    wanted: Status,
    notes: &mut E,
) -> Status
    ensures told { Told (E.contents notes.old) (E.contents notes.new) (E.faults notes.old) (E.faults notes.new) (message_of name.now problem) wanted result }
{
    let Ok(text) = message(alloc, name, problem) else {
        return Status::NoMemory;
    };
    say(text.as_bytes(), wanted, notes)
}

/// Writes the bytes, and answers the status that is wanted.
pub fn say<E: Sink>(text: &[u8], wanted: Status, notes: &mut E) -> Status
    ensures told { Told (E.contents notes.old) (E.contents notes.new) (E.faults notes.old) (E.faults notes.new) text.now wanted result }
{
    match write_all(notes, text) {
        Ok(()) => wanted,
        Err(_) => Status::WriteFault,
    }
}
