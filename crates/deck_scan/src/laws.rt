//! Laws of the grammar of lines: the relation between texts and lines is total and single-valued on
//! the texts that a deck may have, and what prints a name spells it.
ghost use Rattle.std.specs.Prelude.{◌≡◌, ℕ, List, [], ◌∷◌, Some, None, true};
ghost use Rattle.grs_base.specs.Printed.{printed_name};
ghost use Rattle.grs_base.specs.Names.{are_bytes};
ghost use Rattle.deck_scan.specs.declared.token.TokenLine.{TokenLine as Line};
ghost use Rattle.deck_scan.specs.Bytes.{bad_line, are_allowed, IsFirstBad};
ghost use Rattle.deck_scan.specs.Scan.{lines_of};
ghost use Rattle.deck_scan.specs.Pieces.{SpellsLines, Place, spelling, is_piece, is_nonempty, past};
ghost use Rattle.deck_scan.specs.Named.{name_piece, name_line, past_name};

/// The lines that a text spells are those that are read, each text of allowed bytes spells lines,
/// and no text spells two lists of lines.
pub fn spelled_lines()
    ensures read { (text : List ℕ) (lines : List Line) → SpellsLines text lines → lines_of text ≡ lines }
    ensures spells { (text : List ℕ) → bad_line 1 text ≡ None → SpellsLines text (lines_of text) }
    ensures one { (text : List ℕ) (a b : List Line) → SpellsLines text a → SpellsLines text b → a ≡ b }
{}

/// The fault of bytes is told with the line of the first byte that a deck may not have, and exactly
/// where there is one.
pub fn bad_bytes()
    ensures first { (text : List ℕ) (line : ℕ) → bad_line 1 text ≡ Some line → IsFirstBad 1 text line }
    ensures only { (text : List ℕ) (line : ℕ) → IsFirstBad 1 text line → bad_line 1 text ≡ Some line }
    ensures none { (text : List ℕ) → bad_line 1 text ≡ None → are_allowed text [] ≡ true }
    ensures good { (text : List ℕ) → are_allowed text [] ≡ true → bad_line 1 text ≡ None }
{}

/// What prints a name of at least one byte is one piece, which says a token of the same bytes: a
/// word where all are plain, else a name. Alone it is one line of that token.
pub fn printed_names()
    ensures spelling { (bytes : List ℕ) → spelling (name_piece bytes) ≡ printed_name bytes }
    ensures piece { (bytes : List ℕ) → is_nonempty bytes ≡ true → are_bytes bytes ≡ true → is_piece (name_piece bytes) ≡ true }
    ensures says { (bytes : List ℕ) → are_bytes bytes ≡ true → (place : Place) → past (name_piece bytes) place ≡ past_name bytes place }
    ensures alone { (bytes : List ℕ) → is_nonempty bytes ≡ true → are_bytes bytes ≡ true → SpellsLines (printed_name bytes) (name_line bytes ∷ []) }
{}
