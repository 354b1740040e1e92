ghost use Rattle.std.specs.Prelude.{◌≡◌, ◌++◌, ◌∷◌, [], ◌≤◌, ℕ, List, All, Some, None, codes, true, false, option_map};
ghost use Rattle.std.specs.Fmt.{decimal};
ghost use Rattle.command_words.specs.declared.arguments.Arguments.{Arguments};
ghost use Rattle.command_words.specs.Arguments.{IsPlainWord, and_then, arguments, is_option, joined_value, operands};
ghost use Rattle.command_words.specs.Numbers.{number_to};
ghost use Rattle.command_words.specs.Words.{command_named, command_of};

/// A law: among the words after the command the plain ones are operands, after a word `--` each is
/// one, and another word that begins with `-` and isn't the option leaves no form. It does nothing.
pub const fn operands_are_the_files()
    ensures plain { (words : List (List ℕ)) → All IsPlainWord words → arguments false words ≡ Some (operands words) }
    ensures ended { (words after : List (List ℕ)) → All IsPlainWord words → arguments false (words ++ codes "--" ∷ after) ≡ Some (operands (words ++ after)) }
    ensures refused { (words after : List (List ℕ)) (word : List ℕ) → All IsPlainWord words → is_option word ≡ true → (word ≡ codes "--" → ⊥) → (word ≡ codes "--workers" → ⊥) → joined_value word ≡ None → arguments false (words ++ word ∷ after) ≡ None }
{}

/// A law: the option may stand before, between or after the operands, and has its value as the
/// next word or behind `=`; the word `--` is no value. It does nothing.
pub const fn the_option_stands_anywhere()
    ensures next { (command value : List ℕ) (before after : List (List ℕ)) → All IsPlainWord before → All IsPlainWord after → (value ≡ codes "--" → ⊥) → command_of (command ∷ before ++ codes "--workers" ∷ value ∷ after) ≡ command_named command (before ++ after) (value ∷ []) }
    ensures joined { (command value : List ℕ) (before after : List (List ℕ)) → All IsPlainWord before → All IsPlainWord after → command_of (command ∷ before ++ (codes "--workers=" ++ value) ∷ after) ≡ command_named command (before ++ after) (value ∷ []) }
    ensures left_out { (command : List ℕ) (words : List (List ℕ)) → All IsPlainWord words → command_of (command ∷ words) ≡ command_named command words [] }
    ensures no_value { (command : List ℕ) (before : List (List ℕ)) → All IsPlainWord before → command_of (command ∷ before ++ codes "--workers" ∷ []) ≡ None }
{}

/// A law: a word is a number within a limit below 2^32 exactly where it is that number's decimal
/// digits. It does nothing.
pub const fn a_number_is_its_digits()
    ensures spelled { (limit n : ℕ) → 1 ≤ n → n ≤ limit → limit ≤ 4294967295 → number_to limit (decimal n) ≡ Some n }
    ensures spells { (limit n : ℕ) (word : List ℕ) → number_to limit word ≡ Some n → (1 ≤ n) × (n ≤ limit) × (word ≡ decimal n) }
{}
