//! Laws of the commands, each the contract of a function with no result.

ghost use Rattle.std.specs.Prelude.{◌≡◌, ℕ, List};
ghost use Rattle.sql_lexer.specs.Lexeme.{Lexeme};
ghost use Rattle.sql_ast.specs.declared.statement.Statement.{Statement as TheStatement};
ghost use Rattle.sql_ast.specs.Statements.{IsRead, IsWellFormed};
ghost use Rattle.sql_grammar.specs.Phrases.{Spells};
ghost use Rattle.sql_grammar.specs.LookAhead.{Ends};
ghost use Rattle.sql_commands.specs.Commands.{phrase_of};
ghost use Rattle.sql_commands.specs.Statements.{IsEnd, SpellsAs};
ghost use Rattle.sql_lexer.specs.Tokens.{AreReadable};
ghost use Rattle.sql_commands.specs.declared.command.Command.{Command as TheCommand};

/// Tokens spell a command in one way: two readings of one command from one index, each of which
/// ends where no token can extend it, are one.
pub fn one_reading_of_a_command()
    ensures { (source : List ℕ) (command : TheCommand) (ts : List Lexeme) (i m n : ℕ)
        (r s : TheStatement)
        → Spells ts (phrase_of source command) i m r → Spells ts (phrase_of source command) i n s
        → Ends (phrase_of source command) ts m → Ends (phrase_of source command) ts n
        → (m ≡ n) × (r ≡ s) }
{}

/// Tokens spell at most one command, and it in one way: where the tokens from one index on spell a
/// command, and so another, each up to the end of the tokens or to a `;`, both are the same command
/// with the same end and the same statement.
pub fn one_command()
    ensures { (source : List ℕ) (one other : TheCommand) (ts : List Lexeme) (i m n : ℕ)
        (r s : TheStatement)
        → Spells ts (phrase_of source one) i m r → Spells ts (phrase_of source other) i n s
        → IsEnd ts m → IsEnd ts n
        → (one ≡ other) × (m ≡ n) × (r ≡ s) }
{}

/// A list of tokens is at most one statement: if it spells a statement as one command, and one as
/// another, both are the same command and the same statement.
pub fn one_statement()
    ensures { (source : List ℕ) (ts : List Lexeme) (one other : TheCommand) (r s : TheStatement)
        → SpellsAs source one ts r → SpellsAs source other ts s → (one ≡ other) × (r ≡ s) }
{}

/// The end of the tokens and a `;` end every command: neither can extend one.
pub fn every_command_ends()
    ensures { (source : List ℕ) (command : TheCommand) (ts : List Lexeme) (n : ℕ)
        → IsEnd ts n → Ends (phrase_of source command) ts n }
{}

/// What a command spells may be read: where names are names and texts are texts, each statement
/// that the tokens spell and that keeps the rules of form is one that a text may be read as.
pub fn spelled_statements_are_read()
    ensures { (source : List ℕ) (command : TheCommand) (ts : List Lexeme) (i n : ℕ)
        (s : TheStatement)
        → AreReadable source ts → Spells ts (phrase_of source command) i n s
        → IsWellFormed s → IsRead s }
{}
