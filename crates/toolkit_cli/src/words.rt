// The words of the command line.
ghost use Rattle.std.specs.Prelude.{◌≡◌, map, option_map, string_bytes};
ghost use Rattle.toolkit_cli.specs.CommandWords.{command_words};
ghost use Rattle.toolkit_cli.specs.Words as of;

use sled_lexer::parse_number;

/// `dis SPEC MATCH BASE`.
#[derive(Drop)]
pub struct Command<'a> {
    pub spec: &'a str,
    pub matching: &'a str,
    pub base: u32,
}

/// The command that the words are, or None where they have no form of the program.
pub fn command_of(words: &[String]) -> Option<Command<'_>>
    ensures { option_map command_words result ≡ of.words_of (map string_bytes words.now) }
{
    let [command, spec, matching, base] = words else {
        return None;
    };
    if command.as_str() == "dis" && is_name(spec.as_str()) && is_name(matching.as_str()) {
        let base = parse_number(base.as_bytes())?;
        Some(Command {
            spec: spec.as_str(),
            matching: matching.as_str(),
            base,
        })
    } else {
        None
    }
}

fn is_name(word: &str) -> bool
    ensures { result ≡ of.is_name word.now }
{
    match word.as_bytes() {
        [] => false,
        [first, ..] => *first != b'@',
    }
}
