//! What holds of the sentences and of the words.

ghost use Rattle.std.specs.Prelude.{◌≡◌, ◌≢◌, All};
ghost use Rattle.sql_types.specs.declared.state.SqlState.{SqlState};
ghost use Rattle.sql_types.specs.declared.warning.Warning.{Warning};
ghost use Rattle.sql_lexer.specs.declared.token.TokenKind.TheVariants.{Word};
ghost use Rattle.sql_lexer.specs.Word.{word_kind};
ghost use Rattle.postgres_texts.specs.Reserved.{reserved_words};
ghost use Rattle.postgres_texts.specs.Sentences.{refusal_text, warning_text};

/// No sentence has a zero byte, so each can be written in a message.
pub fn sentences()
    ensures refusals { (state : SqlState) → All (λ byte. byte ≢ 0) (refusal_text state) }
    ensures warnings { (warning : Warning) → All (λ byte. byte ≢ 0) (warning_text warning) }
{}

/// None of the reserved words is a keyword of the language: it takes each for a name.
pub fn words()
    ensures { All (λ word. word_kind word ≡ Word) reserved_words }
{}
