// What a reader may expect of the words of the command line.
ghost use Rattle.std.specs.Prelude.{ℕ, ◌≡◌, List};
ghost use Rattle.lw_command_line.specs.Words.{IsCheck, IsMake, IsServe};

/// Words are one command at most: by one name, over one grammar, with one depth of look-ahead, and with the same files or the same number of
/// documents.
pub fn one_command()
    ensures check { (words : List (List ℕ)) (path other : List ℕ) (j k : ℕ) → IsCheck words path j → IsCheck words other k → (path ≡ other) × (j ≡ k) }
    ensures serve { (words : List (List ℕ)) (path other : List ℕ) (files others : List (List ℕ)) (j k : ℕ) →
        IsServe words path files j → IsServe words other others k → (path ≡ other) × (files ≡ others) × (j ≡ k) }
    ensures make { (words : List (List ℕ)) (path other : List ℕ) (m n j k : ℕ) → IsMake words path m j → IsMake words other n k →
        (path ≡ other) × (m ≡ n) × (j ≡ k) }
    ensures check_or_serve { (words : List (List ℕ)) (path other : List ℕ) (files : List (List ℕ)) (j k : ℕ) → IsCheck words path j → ¬ IsServe words other files k }
    ensures check_or_make { (words : List (List ℕ)) (path other : List ℕ) (count j k : ℕ) → IsCheck words path j → ¬ IsMake words other count k }
    ensures serve_or_make { (words : List (List ℕ)) (path other : List ℕ) (files : List (List ℕ)) (count j k : ℕ) → IsServe words path files j → ¬ IsMake words other count k }
{}
