//! Laws of the grammar of calls: a text spells one list of calls or has one first fault.
ghost use Rattle.std.specs.Prelude.{◌≡◌, ◌⊎◌, ℕ, List};
ghost use Rattle.grs_base.specs.declared.fault.DeckFault.{DeckFault as FaultValue};
ghost use Rattle.grs_latch.specs.declared.call.LatchCall.{LatchCall as CallValue};
ghost use Rattle.latch_form.specs.Faults.{IsFault, IsFaultless};
ghost use Rattle.latch_form.specs.Spelled.{SpellsCalls};

/// Each text spells calls or has a first fault, never both, and no two of either.
pub fn one_list_of_calls()
    ensures either { (text : List ℕ) → ((cs : List CallValue) × SpellsCalls text cs) ⊎ ((f : FaultValue) × IsFault text f) }
    ensures one { (text : List ℕ) (cs ds : List CallValue) → SpellsCalls text cs → SpellsCalls text ds → cs ≡ ds }
    ensures one_fault { (text : List ℕ) (f g : FaultValue) → IsFault text f → IsFault text g → f ≡ g }
    ensures spelled { (text : List ℕ) (cs : List CallValue) → SpellsCalls text cs → IsFaultless text }
{}
