//! What lines and decimals come to, for crates that write them and read them back.

ghost use Rattle.std.specs.Prelude.{◌≡◌, ◌<◌, ◌^◌, ◌++◌, ◌∷◌, ℕ, List, Some, true};
ghost use Rattle.std.specs.Fmt.{decimal};
ghost use Rattle.sd_base.specs.Lines.{lines_of, is_line};
ghost use Rattle.sd_base.specs.Number.{decimal_value, decimal_after};

/// A line and its line feed before a text are the first of its lines.
#[tactic(auto, using(sd_base::proofs::Cuts::line_cut))]
pub fn line_before()
    ensures { (line rest : List ℕ) → is_line line ≡ true → lines_of (line ++ 10 ∷ rest) ≡ line ∷ lines_of rest }
{}

/// What `{}` writes of a number is read back, and nothing else is read as that number.
#[tactic(auto, using(sd_base::proofs::DecimalNumbers::number_of_decimal, sd_base::proofs::DecimalNumbers::decimal_of_number))]
pub fn decimals()
    ensures read { (n : ℕ) → n < 2 ^ 64 → decimal_value (decimal n) ≡ Some n }
    ensures alone { (text : List ℕ) (n : ℕ) → n < 2 ^ 64 → decimal_value text ≡ Some n → text ≡ decimal n }
{}

/// A word and what `{}` writes of a number after it are read back.
#[tactic(auto, using(sd_base::proofs::DecimalNumbers::decimal_after_decimal))]
pub fn decimal_after_word()
    ensures { (word : List ℕ) (n : ℕ) → n < 2 ^ 64 → decimal_after word (word ++ decimal n) ≡ Some n }
{}

/// What `{}` writes of a number stands on one line.
#[tactic(auto, using(sd_base::proofs::DecimalNumbers::decimal_in_line))]
pub fn decimal_in_line()
    ensures { (n : ℕ) → n < 2 ^ 64 → is_line (decimal n) ≡ true }
{}
