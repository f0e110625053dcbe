//! Laws of the grammar of statements: a line spells one statement, or is none for one reason.
ghost use Rattle.std.specs.Prelude.{◌≡◌, ◌≤◌, ◌⊎◌, ℕ, Bool, false, List, length};
ghost use Rattle.grs_base.specs.Limits.{most_name_bytes};
ghost use Rattle.grs_base.specs.declared.fault.Kind.{Kind as KindValue};
ghost use Rattle.deck_scan.specs.declared.token.TokenLine.{TokenLine as Line};
ghost use Rattle.deck_form.specs.declared.form.Stmt.{Stmt as StmtValue};
ghost use Rattle.deck_form.specs.declared.form.Stmt.TheVariants.{System};
ghost use Rattle.deck_form.specs.Form.{form};
ghost use Rattle.deck_form.specs.Spelled.{Spells, IsNoStatement};
ghost use Rattle.deck_form.specs.SystemNames.{name_given};

/// What a line spells is what is read of it, and a line spells one statement or is none for one reason.
pub fn one_statement()
    ensures read { (scheduled : Bool) (entries : ℕ) (l : Line) (st : StmtValue) → Spells scheduled entries l st → form scheduled entries l ≡ Ok st }
    ensures one { (scheduled : Bool) (entries : ℕ) (l : Line) (a b : StmtValue) → Spells scheduled entries l a → Spells scheduled entries l b → a ≡ b }
    ensures either { (scheduled : Bool) (entries : ℕ) (l : Line) → ((st : StmtValue) × Spells scheduled entries l st) ⊎ ((k : KindValue) × IsNoStatement k scheduled entries l) }
    ensures apart { (scheduled : Bool) (entries : ℕ) (l : Line) (st : StmtValue) (k : KindValue) → Spells scheduled entries l st → IsNoStatement k scheduled entries l → ⊥ }
    ensures kind { (scheduled : Bool) (entries : ℕ) (l : Line) (j k : KindValue) → IsNoStatement j scheduled entries l → IsNoStatement k scheduled entries l → j ≡ k }
{}

/// The name that a line gives to a system is that of the SYSTEM statement which it spells, where that isn't too long.
pub fn names_are_spelled()
    ensures spelled { (entries : ℕ) (l : Line) (n : List ℕ) → name_given l ≡ Some n → Spells false entries l (System n) × (length n ≤ most_name_bytes) }
    ensures given { (entries : ℕ) (l : Line) (n : List ℕ) → Spells false entries l (System n) → length n ≤ most_name_bytes → name_given l ≡ Some n }
{}
