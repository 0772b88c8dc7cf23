//! What holds of the code itself. Its functions do nothing: what each ensures is the law.

ghost use Rattle.std.specs.Prelude.{◌≡◌, ℕ, List, length};
ghost use Rattle.conv_code.specs.Code.{Codes, code_of};
ghost use Rattle.conv_code.specs.Linear.{exclusive_ors};

/// A list has one code (own).
pub fn one_code()
    ensures codes { (u : List ℕ) → Codes (code_of u) u }
    ensures no_other { (code u : List ℕ) → Codes code u → code ≡ code_of u }
{}

/// The code is linear: the code of the exclusive or of two lists of one length is the exclusive or of their codes,
/// place by place (own).
pub fn code_of_exclusive_or()
    ensures { (u v : List ℕ) → length u ≡ length v
        → code_of (exclusive_ors u v) ≡ exclusive_ors (code_of u) (code_of v) }
{}
