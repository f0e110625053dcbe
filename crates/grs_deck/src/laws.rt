//! Laws of the grammar of decks: a text spells one deck or has one first fault, and event lines spell their events
//! alone.
ghost use Rattle.std.specs.Prelude.{◌≡◌, ◌⊎◌, ◌++◌, ℕ, true, List};
ghost use Rattle.grs_base.specs.declared.fault.DeckFault.{DeckFault as FaultValue};
ghost use Rattle.grs_wire.specs.declared.deck.Deck.{Deck as DeckValue};
ghost use Rattle.grs_wire.specs.declared.deck.SystemDef.{SystemDef as SystemValue};
ghost use Rattle.grs_wire.specs.declared.deck.Event.{Event as EventValue};
ghost use Rattle.grs_wire.specs.Decks.{IsDeck};
ghost use Rattle.deck_scan.specs.declared.token.TokenLine.{TokenLine as LineValue};
ghost use Rattle.grs_deck.specs.declared.judge.Draft.{Draft as DraftValue};
ghost use Rattle.grs_deck.specs.EventLines.{SayEvents, SpellsEvents};
ghost use Rattle.grs_deck.specs.Spells.{Says, SpellsDeck};
ghost use Rattle.grs_deck.specs.Faults.{IsFault, IsFaultless};

/// Each text spells a deck or has a first fault, never both, and no two of either.
pub fn one_deck()
    ensures either { (text : List ℕ) → ((d : DeckValue) × SpellsDeck text d) ⊎ ((f : FaultValue) × IsFault text f) }
    ensures one { (text : List ℕ) (d e : DeckValue) → SpellsDeck text d → SpellsDeck text e → d ≡ e }
    ensures one_fault { (text : List ℕ) (f g : FaultValue) → IsFault text f → IsFault text g → f ≡ g }
    ensures spelled { (text : List ℕ) (d : DeckValue) → SpellsDeck text d → IsFaultless text }
    // Such a deck is within the limits, and its events speak of what is there.
    ensures whole { (text : List ℕ) (d : DeckValue) → SpellsDeck text d → IsDeck d }
{}

/// A text spells one list of events, or none. Behind the SCHEDULE of a deck event lines stand right, and add their events
/// to it.
pub fn event_lines()
    ensures one { (systems : List SystemValue) (entries : ℕ) (text : List ℕ) (es fs : List EventValue) → SpellsEvents systems entries text es → SpellsEvents systems entries text fs → es ≡ fs }
    ensures added { (lines : List LineValue) (es : List EventValue) (d : DraftValue) → d.scheduled ≡ true → SayEvents d.deck.systems d.deck.entries lines es → (e : DraftValue) × Says d lines e × (e.deck ≡ record d.deck { events = d.deck.events ++ es }) }
{}
