//! Laws of what is answered, as the clauses of calls that do nothing.

ghost use Rattle.std.specs.Prelude.{◌≡◌, ◌≢◌, ◌⊎◌, ℕ, List};
ghost use Rattle.sv_tree.specs.declared.token.Token.{Token};
ghost use Rattle.sv_pp.specs.declared.fault.PpFault.{PpFault};
ghost use Rattle.sv_pp.specs.declared.fault.PpFault.TheVariants.{NoMemory};
ghost use Rattle.sv_pp.specs.Directive.{Text};
ghost use Rattle.sv_pp.specs.Reading.{Reading};
ghost use Rattle.sv_pp.specs.Active.{reading};
ghost use Rattle.sv_pp.specs.Plain.{AllPlain, TakesOneBranch, all_tokens, as_they_stand};
ghost use Rattle.sv_pp.specs.Answer.{AllNamed, ReadsAs, FaultIs};

/// Files have active tokens, or a fault.
pub fn tokens_or_fault()
    ensures { (most : ℕ) (names : List Text) (files : List (List Token)) → AllNamed names files → ((tokens : List Token) × ReadsAs most tokens (reading names files)) ⊎ ((f : PpFault) × (f ≢ NoMemory) × FaultIs most f (reading names files)) }
{}

/// They have no other tokens and no other fault.
pub fn one_answer()
    ensures tokens { (most : ℕ) (a b : List Token) (r : Reading) → ReadsAs most a r → ReadsAs most b r → a ≡ b }
    ensures fault { (most : ℕ) (f g : PpFault) (r : Reading) → f ≢ NoMemory → g ≢ NoMemory → FaultIs most f r → FaultIs most g r → f ≡ g }
    ensures apart { (most : ℕ) (tokens : List Token) (f : PpFault) (r : Reading) → ReadsAs most tokens r → FaultIs most f r → f ≡ NoMemory }
{}

/// Files in which no directive stands are left as they are.
pub fn plain_files()
    ensures { (names : List Text) (files : List (List Token)) → AllPlain files → reading names files ≡ as_they_stand (all_tokens files) }
{}

/// Of `` `ifdef NAME first `else second `endif `` the first branch is active where the name is defined, and else the second.
pub fn conditional()
    ensures { TakesOneBranch }
{}
