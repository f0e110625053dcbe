//! Laws of the grammar of RNLDEFs: what is read of tokens is what they spell; a text spells one entry or has
//! one fault; what is printed of an entry is read as that entry; and what is read uses the bytes of its
//! statement.
ghost use Rattle.std.specs.Prelude.{◌≡◌, ◌⊎◌, ◌++◌, ℕ, List, Some, length};
ghost use Rattle.grs_base.specs.declared.fault.DeckFault.{DeckFault as FaultValue};
ghost use Rattle.grs_base.specs.declared.rnl.RnlEntry.{RnlEntry as EntryValue};
ghost use Rattle.grs_base.specs.NameLists.{IsEntry};
ghost use Rattle.deck_scan.specs.declared.token.Token.{Token as TokenValue};
ghost use Rattle.rnl_syntax.specs.declared.operands.Rnldef.{Rnldef as RnldefValue};
ghost use Rattle.rnl_syntax.specs.Operands.{rnldef_at};
ghost use Rattle.rnl_syntax.specs.Spelled.{IsRnldef};
ghost use Rattle.rnl_syntax.specs.Printed.{printed_rnldef};
ghost use Rattle.rnl_syntax.specs.Reading.{MakesEntry, SpellsEntry, IsFault};
ghost use Rattle.rnl_syntax.specs.Laws.{MayFollow, AreStatement};

/// Of the tokens behind the word RNLDEF, exactly the operands that they spell are read.
pub fn spelled_tokens()
    ensures read { (ts : List TokenValue) (d : RnldefValue) → rnldef_at ts ≡ Some d → IsRnldef ts d }
    ensures every { (ts : List TokenValue) (d : RnldefValue) → IsRnldef ts d → rnldef_at ts ≡ Some d }
{}

/// Each text makes an entry or has a fault, never both, and no two of either.
pub fn one_entry()
    ensures either { (text : List ℕ) → ((e : EntryValue) × MakesEntry text e) ⊎ ((f : FaultValue) × IsFault text f) }
    ensures one { (text : List ℕ) (d e : EntryValue) → MakesEntry text d → MakesEntry text e → d ≡ e }
    ensures one_fault { (text : List ℕ) (f g : FaultValue) → IsFault text f → IsFault text g → f ≡ g }
    ensures apart { (text : List ℕ) (e : EntryValue) (f : FaultValue) → MakesEntry text e → IsFault text f → ⊥ }
{}

/// The bytes that an RNLDEF uses are its own, up to the closing parenthesis of its last operand.
pub fn used_bytes()
    ensures own { (text : List ℕ) (e : EntryValue) (used : ℕ) → SpellsEntry text e used → AreStatement text used }
{}

/// A text that begins with the printed form of an entry spells that entry, where nothing follows, or a
/// line whose first token goes on with no operand. The bytes used are those of the printed form.
pub fn printed_entries()
    ensures again { (e : EntryValue) (behind : List ℕ) → IsEntry e → MayFollow behind → SpellsEntry (printed_rnldef e ++ behind) e (length (printed_rnldef e)) }
{}
