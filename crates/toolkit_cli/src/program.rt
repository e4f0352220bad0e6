// The top call.
ghost use Rattle.std.specs.Prelude.{◌≡◌, ◌⊎◌, ◌≢◌, ◌≤◌, ℕ, List, Option, None, Some, map, string_bytes};
ghost use Rattle.std.specs.Option.{ForSome};
ghost use Rattle.std.specs.Io.KnownBytes.{IsAtEnd, Keeps};
ghost use Rattle.sled_base.specs.Causes.{Rose};
ghost use Rattle.match_meaning.specs.Matchable.{IsMatchable};
ghost use Rattle.image_listing.specs.Listing.{Taking};
ghost use Rattle.disassembler.specs.Disassembly.{IsTakingOf};
ghost use Rattle.toolkit_cli.specs.CommandWords.{command_words};
ghost use Rattle.toolkit_cli.specs.Words.{words_of};
ghost use Rattle.toolkit_cli.specs.Reply.{Settled, Settles, SettlesDis, TellsTexts, accepted, reply};
ghost use Rattle.toolkit_cli.specs.Stands.{AcceptsByWords, AcceptsTexts, Stands, StopTold, ReadsInput, Unread, UnreadByWords, Answered, IsAnswer, IsReply, IsUnread, IsUnwritten, IsForgone};

use crate::messages::Problem;
use crate::status::Status;
use crate::texts::{TextStop, described, read_decls, read_statement, say, tell};
use crate::words::{Command, command_of};
use disassembler::prepare;
use image_listing::{ListFault, list};
use sled_base::{Shelf, Sink, Source};
use sled_model::{Spec, Statement};
use std::alloc::Global;

const USAGE: &str = "usage: sledkit dis SPEC MATCH BASE\n";

/// Does all that the program does.
///
/// The words are those behind the program's name. Texts are loaded from the shelf by the words, the image is read from `input`, the
/// listing is written to `out`, and messages to `notes`.
pub fn run<H: Shelf, I: Source, O: Sink, E: Sink>(
    alloc: Global,
    words: &[String],
    shelf: &mut H,
    input: &mut I,
    out: &mut O,
    notes: &mut E,
) -> Status
    // Done, Refused and Usage come only where output, notes and status are those of the reply to what words and texts come to.
    ensures answered { IsAnswer result → Answered (Settles (words_of (map string_bytes words.now)) (record { text = H.text shelf.old; lacks = H.lacks shelf.old })) (I.left input.old) (IsReply
        (record { old = O.contents out.old; new = O.contents out.new; count = O.faults out.old; new_count = O.faults out.new })
        (record { old = E.contents notes.old; new = E.contents notes.new; count = E.faults notes.old; new_count = E.faults notes.new })
        result) }

    // Where the texts are told, they are those of the reply to anything that words and texts come to: it is one thing at most.
    ensures only { IsAnswer result → (s : Settled) → TellsTexts (words_of (map string_bytes words.now)) (record { text = H.text shelf.old; lacks = H.lacks shelf.old }) → Settles (words_of (map string_bytes words.now)) (record { text = H.text shelf.old; lacks = H.lacks shelf.old }) s
        → ForSome (reply s (I.left input.old)) (IsReply
        (record { old = O.contents out.old; new = O.contents out.new; count = O.faults out.old; new_count = O.faults out.new })
        (record { old = E.contents notes.old; new = E.contents notes.new; count = E.faults notes.old; new_count = E.faults notes.new })
        result) }

    // Where no count rose and there was memory, it is one of these.
    ensures complete { ((name : List ℕ) → ¬ Rose (H.faults shelf.old name) (H.faults shelf.new name)) → ¬ Rose (I.faults input.old) (I.faults input.new)
        → ¬ Rose (O.faults out.old) (O.faults out.new) → ¬ Rose (E.faults notes.old) (E.faults notes.new) → IsAnswer result ⊎ (result ≡ Status.NoMemory) }

    // Usage, exactly where the words have no form.
    ensures usage { result ≡ Status.Usage → words_of (map string_bytes words.now) ≡ None }
    ensures no_form { words_of (map string_bytes words.now) ≡ None → (result ≡ Status.Usage) ⊎ ((result ≡ Status.WriteFault) ⊎ (result ≡ Status.NoMemory)) }

    // A read failed: its name, its count, the texts before it, its message, and what out got: of a text nothing, of the input the
    // lines of the front of the listing of the bytes that were given.
    ensures read_fault { result ≡ Status.ReadFault → IsUnread
        (UnreadByWords (words_of (map string_bytes words.now)) (record { text = H.text shelf.old; lacks = H.lacks shelf.old })
        (λ name. Rose (H.faults shelf.old name) (H.faults shelf.new name))
        (record { old = I.left input.old; new = I.left input.new; count = I.faults input.old; new_count = I.faults input.new })
        (record { old = O.contents out.old; new = O.contents out.new; count = O.faults out.old; new_count = O.faults out.new }))
        (record { old = E.contents notes.old; new = E.contents notes.new; count = E.faults notes.old; new_count = E.faults notes.new }) }

    // A write failed: the count of out or of notes, and what each got.
    ensures write_fault { result ≡ Status.WriteFault → IsUnwritten (Settles (words_of (map string_bytes words.now)) (record { text = H.text shelf.old; lacks = H.lacks shelf.old })) (I.left input.old)
        (UnreadByWords (words_of (map string_bytes words.now)) (record { text = H.text shelf.old; lacks = H.lacks shelf.old })
        (λ name. Rose (H.faults shelf.old name) (H.faults shelf.new name))
        (record { old = I.left input.old; new = I.left input.new; count = I.faults input.old; new_count = I.faults input.new })
        (record { old = O.contents out.old; new = O.contents out.new; count = O.faults out.old; new_count = O.faults out.new }))
        (record { old = O.contents out.old; new = O.contents out.new; count = O.faults out.old; new_count = O.faults out.new })
        (record { old = E.contents notes.old; new = E.contents notes.new; count = E.faults notes.old; new_count = E.faults notes.new }) }

    // There was no memory: nothing is written, or parts of the output and of the notes.
    ensures no_memory { result ≡ Status.NoMemory → IsForgone (Settles (words_of (map string_bytes words.now)) (record { text = H.text shelf.old; lacks = H.lacks shelf.old })) (I.left input.old)
        (record { old = O.contents out.old; new = O.contents out.new; count = O.faults out.old; new_count = O.faults out.new })
        (record { old = E.contents notes.old; new = E.contents notes.new; count = E.faults notes.old; new_count = E.faults notes.new }) }

    // Unless both texts are accepted, nothing is written to out and nothing is read, whatever the answer is.
    ensures untouched { AcceptsByWords (words_of (map string_bytes words.now)) (record { text = H.text shelf.old; lacks = H.lacks shelf.old }) ⊎ Keeps (O.contents out.old) (O.contents out.new) }
    ensures unasked { AcceptsByWords (words_of (map string_bytes words.now)) (record { text = H.text shelf.old; lacks = H.lacks shelf.old }) ⊎ (input.new ≡ input.old) }

    ensures read_to_end { result ≡ Status.Done → IsAtEnd (I.left input.new) }

    // The shelf is asked for SPEC and MATCH alone.
    ensures others { (name : List ℕ) → ForSome (words_of (map string_bytes words.now)) (λ w. (name ≢ w.spec) × (name ≢ w.matching))
        → H.faults shelf.new name ≡ H.faults shelf.old name }
    ensures texts { (any : List ℕ) → H.text shelf.new any ≡ H.text shelf.old any }
    ensures absent { (any : List ℕ) → H.lacks shelf.new any ≡ H.lacks shelf.old any }
{
    answer(alloc, words, shelf, input, out, notes)
}

// What stands after each status, in one clause.
fn answer<H: Shelf, I: Source, O: Sink, E: Sink>(
    alloc: Global,
    words: &[String],
    shelf: &mut H,
    input: &mut I,
    out: &mut O,
    notes: &mut E,
) -> Status
    ensures stands { Stands (Settles (words_of (map string_bytes words.now)) (record { text = H.text shelf.old; lacks = H.lacks shelf.old })) (I.left input.old)
        (UnreadByWords (words_of (map string_bytes words.now)) (record { text = H.text shelf.old; lacks = H.lacks shelf.old })
        (λ name. Rose (H.faults shelf.old name) (H.faults shelf.new name))
        (record { old = I.left input.old; new = I.left input.new; count = I.faults input.old; new_count = I.faults input.new })
        (record { old = O.contents out.old; new = O.contents out.new; count = O.faults out.old; new_count = O.faults out.new }))
        (record { old = O.contents out.old; new = O.contents out.new; count = O.faults out.old; new_count = O.faults out.new })
        (record { old = E.contents notes.old; new = E.contents notes.new; count = E.faults notes.old; new_count = E.faults notes.new })
        result }
    ensures unasked { AcceptsByWords (words_of (map string_bytes words.now)) (record { text = H.text shelf.old; lacks = H.lacks shelf.old }) ⊎ (input.new ≡ input.old) }
    ensures usage { result ≡ Status.Usage → words_of (map string_bytes words.now) ≡ None }
    ensures read_to_end { result ≡ Status.Done → IsAtEnd (I.left input.new) }
    ensures others { (name : List ℕ) → ForSome (words_of (map string_bytes words.now)) (λ w. (name ≢ w.spec) × (name ≢ w.matching))
        → H.faults shelf.new name ≡ H.faults shelf.old name }
    ensures texts { (any : List ℕ) → H.text shelf.new any ≡ H.text shelf.old any }
    ensures absent { (any : List ℕ) → H.lacks shelf.new any ≡ H.lacks shelf.old any }
{
    match command_of(words) {
        None => say(USAGE.as_bytes(), Status::Usage, notes),
        Some(command) => dis(alloc, &command, shelf, input, out, notes),
    }
}

fn dis<H: Shelf, I: Source, O: Sink, E: Sink>(
    alloc: Global,
    command: &Command<'_>,
    shelf: &mut H,
    input: &mut I,
    out: &mut O,
    notes: &mut E,
) -> Status
    ensures stands { Stands (SettlesDis (command_words command.now) (record { text = H.text shelf.old; lacks = H.lacks shelf.old })) (I.left input.old)
        (Unread (command_words command.now) (record { text = H.text shelf.old; lacks = H.lacks shelf.old })
        (λ name. Rose (H.faults shelf.old name) (H.faults shelf.new name))
        (record { old = I.left input.old; new = I.left input.new; count = I.faults input.old; new_count = I.faults input.new })
        (record { old = O.contents out.old; new = O.contents out.new; count = O.faults out.old; new_count = O.faults out.new }))
        (record { old = O.contents out.old; new = O.contents out.new; count = O.faults out.old; new_count = O.faults out.new })
        (record { old = E.contents notes.old; new = E.contents notes.new; count = E.faults notes.old; new_count = E.faults notes.new })
        result }
    ensures unasked { AcceptsTexts (command_words command.now) (record { text = H.text shelf.old; lacks = H.lacks shelf.old }) ⊎ (input.new ≡ input.old) }
    ensures usage { result ≢ Status.Usage }
    ensures read_to_end { result ≡ Status.Done → IsAtEnd (I.left input.new) }
    ensures others { (name : List ℕ) → name ≢ command.now.spec.now → name ≢ command.now.matching.now → H.faults shelf.new name ≡ H.faults shelf.old name }
    ensures texts { (any : List ℕ) → H.text shelf.new any ≡ H.text shelf.old any }
    ensures absent { (any : List ℕ) → H.lacks shelf.new any ≡ H.lacks shelf.old any }
{
    let decls = match read_decls(alloc, shelf, command.spec) {
        Ok(decls) => decls,
        Err(stop) => return stopped(alloc, command.spec, stop, notes),
    };
    let description = match described(alloc, decls.as_slice()) {
        Ok(description) => description,
        Err(stop) => return stopped(alloc, command.spec, stop, notes),
    };
    let statement = match read_statement(alloc, shelf, &description, command.matching) {
        Ok(statement) => statement,
        Err(stop) => return stopped(alloc, command.matching, stop, notes),
    };
    let (spec, base) = (&description.spec, command.base);
    listed(alloc, spec, &statement, base, input, out, notes)
}

// What goes to the notes where a text does not serve.
fn stopped<E: Sink>(alloc: Global, name: &str, stop: TextStop, notes: &mut E) -> Status
    ensures told { StopTold (record { old = E.contents notes.old; new = E.contents notes.new; count = E.faults notes.old; new_count = E.faults notes.new })
        name.now stop result }
    ensures usage { result ≢ Status.Usage }
    ensures done { result ≢ Status.Done }
{
    match stop {
        TextStop::Unread => tell(alloc, name, Problem::Unread, Status::ReadFault, notes),
        TextStop::Refused(problem) => tell(
            alloc,
            name,
            problem,
            Status::Refused(problem.number()),
            notes,
        ),
        TextStop::NoMemory => Status::NoMemory,
    }
}

// Lists the input, and says why it ends.
fn listed<I: Source, O: Sink, E: Sink>(
    alloc: Global,
    spec: &Spec,
    statement: &Statement,
    base: u32,
    input: &mut I,
    out: &mut O,
    notes: &mut E,
) -> Status
    requires { IsMatchable spec.now statement.now }
    ensures stands { (taking : Taking) → IsTakingOf spec.now statement.now taking → Stands (λ s. s ≡ accepted taking base) (I.left input.old)
        (ReadsInput taking base
        (record { old = I.left input.old; new = I.left input.new; count = I.faults input.old; new_count = I.faults input.new })
        (record { old = O.contents out.old; new = O.contents out.new; count = O.faults out.old; new_count = O.faults out.new }))
        (record { old = O.contents out.old; new = O.contents out.new; count = O.faults out.old; new_count = O.faults out.new })
        (record { old = E.contents notes.old; new = E.contents notes.new; count = E.faults notes.old; new_count = E.faults notes.new })
        result }
    ensures usage { result ≢ Status.Usage }
    ensures read_to_end { result ≡ Status.Done → IsAtEnd (I.left input.new) }
{
    let Ok(mut decoder) = prepare(alloc, spec, statement) else {
        return Status::NoMemory;
    };
    match list(alloc, &mut decoder, base, input, out) {
        Ok(_) => Status::Done,
        Err(ListFault::NoMatch(address)) => tell(
            alloc,
            "input",
            Problem::NoMatch(address),
            Status::Refused(9),
            notes,
        ),
        Err(ListFault::AddressEnd(address)) => tell(
            alloc,
            "input",
            Problem::AddressEnd(address),
            Status::Refused(10),
            notes,
        ),
        Err(ListFault::ReadFault) => tell(
            alloc,
            "input",
            Problem::Unread,
            Status::ReadFault,
            notes,
        ),
        Err(ListFault::WriteFault) => Status::WriteFault,
        Err(ListFault::NoMemory) => Status::NoMemory,
    }
}
