//! Laws of the grammar of task lines: what is read of tokens is what they spell; a text spells one line or has
//! one fault; and what is printed of a line is read as that line.
ghost use Rattle.std.specs.Prelude.{◌≡◌, ◌⊎◌, ℕ, List, Some};
ghost use Rattle.grs_base.specs.declared.fault.DeckFault.{DeckFault as FaultValue};
ghost use Rattle.grs_base.specs.declared.line.Line.{Line as LineValue};
ghost use Rattle.grs_base.specs.Lines.{IsDeckLine};
ghost use Rattle.deck_scan.specs.declared.token.Token.{Token as TokenValue};
ghost use Rattle.job_syntax.specs.declared.line_ask.LineAsk.{LineAsk as LineAskValue};
ghost use Rattle.job_syntax.specs.declared.line_ask.LineWord.{LineWord as LineWordValue};
ghost use Rattle.job_syntax.specs.LineAsk.{line_word, line_ask_at};
ghost use Rattle.job_syntax.specs.Spelled.{IsWord, IsBehind, line_word_for};
ghost use Rattle.job_syntax.specs.Printed.{printed_line};
ghost use Rattle.job_syntax.specs.Reading.{SpellsLine, IsFault};

/// Of a word and the tokens behind it, exactly the task lines that they spell are read.
pub fn spelled_tokens()
    ensures word { (w : List ℕ) (v : LineWordValue) → line_word w ≡ Some v → IsWord v w }
    ensures every_word { (w : List ℕ) (v : LineWordValue) → IsWord v w → line_word w ≡ Some v }
    ensures behind { (v : LineWordValue) (ts : List TokenValue) (s : LineAskValue) → line_ask_at v ts ≡ Some s → (line_word_for s ≡ v) × IsBehind ts s }
    ensures every_behind { (ts : List TokenValue) (s : LineAskValue) → IsBehind ts s → line_ask_at (line_word_for s) ts ≡ Some s }
{}

/// Each text spells a line or has a fault, never both, and no two of either.
pub fn one_line()
    ensures either { (text : List ℕ) → ((l : LineValue) × SpellsLine text l) ⊎ ((f : FaultValue) × IsFault text f) }
    ensures one { (text : List ℕ) (l m : LineValue) → SpellsLine text l → SpellsLine text m → l ≡ m }
    ensures one_fault { (text : List ℕ) (f g : FaultValue) → IsFault text f → IsFault text g → f ≡ g }
    ensures apart { (text : List ℕ) (l : LineValue) (f : FaultValue) → SpellsLine text l → IsFault text f → ⊥ }
{}

/// The printed form of a line that a deck can have spells that line.
pub fn printed_lines()
    ensures again { (l : LineValue) → IsDeckLine l → SpellsLine (printed_line l) l }
{}
