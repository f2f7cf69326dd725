//! What follows from the definition of what a command asks for. These functions run no code: their clauses are the laws, of
//! which `other_lane` of `nm_line` calls one.

ghost use Rattle.std.specs.Prelude.{◌≡◌, ◌↔◌, ◌≤◌, ℕ, List, true};
ghost use Rattle.nm_model_answer.specs.declared.request.Request.{Request};
ghost use Rattle.nm_base.specs.declared.refusals.UsageKind.{UsageKind};
ghost use Rattle.nm_command.specs.Grammar.{IsRequest};
ghost use Rattle.nm_lanes.specs.declared.script.ScriptLine.{ScriptLine};
ghost use Rattle.nm_log.specs.LineGrammar.{AsksFor, IsFaulty, command_of};
ghost use Rattle.nm_log.specs.ParsedLine.{asked_by, is_of_every_lane, parse_line, parse_single};
ghost use Rattle.nm_log.specs.declared.line_parser.ParsedLine.TheVariants as asked;

use nm_command::{words_are_read_as_the_grammar_says, words_have_one_answer};

/// A line asks for what the grammar says, and is refused where it says, for the word and the reason that it says.
pub fn lines_are_read_as_the_grammar_says()
    ensures request { (line : ScriptLine) → (request : Request) → (asked_by line ≡ asked.Request request) ↔ AsksFor line request }
    ensures refusal { (line : ScriptLine) → (word : List ℕ) → (kind : UsageKind) → (asked_by line ≡ asked.Usage word kind) ↔ IsFaulty line word kind }
{
    words_are_read_as_the_grammar_says();
    words_have_one_answer();
}

/// Lanes other than 0 ask for what every lane may: a search, a count or a dump.
pub fn other_lanes_search_count_and_dump()
    ensures { (line : ScriptLine) → (request : Request) → 1 ≤ line.lane → parse_line line ≡ asked.Request request → is_of_every_lane request ≡ true }
{
    words_are_read_as_the_grammar_says();
}

/// The words of a single command ask for what the grammar of commands says.
pub fn single_commands_are_read_as_the_grammar_says()
    ensures { (words : List (List ℕ)) → (request : Request) → IsRequest words (command_of request)
        → parse_single words ≡ asked.Request request }
{
    words_are_read_as_the_grammar_says();
    words_have_one_answer();
}
