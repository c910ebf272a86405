//! Laws of the grammar, over all files. Each law is the contract of a function with an empty body.
//! Callers may cite the laws, and readers may check the definitions against them.
ghost use Rattle.std.specs.Prelude.{◌≡◌, ℕ, ◌<◌, ◌≤◌, ◌↔◌, ◌^◌, ℤ, List, ◌++◌, length, Some, Ok, Err, decimal};
ghost use Rattle.std.specs.Fmt.{signed_decimal};
ghost use Rattle.std.specs.Int.{w64};
ghost use Rattle.std.specs.Int.RustNames.{FitsSigned};
ghost use Rattle.update.specs.declared.refusal.Refusal.{Refusal};
ghost use Rattle.grammar.specs.Numbers.{whole_of, signed_of};
ghost use Rattle.grammar.specs.Text.{lines_of, words_of};
ghost use Rattle.grammar.specs.JoinedText.{joined_lines, joined_words, AreWords, AreLines};
ghost use Rattle.grammar.specs.ScriptModels.{ScriptModel, IsWhole};
ghost use Rattle.grammar.specs.ParseStates.{ParseState};
ghost use Rattle.grammar.specs.Lines.{line_of};
ghost use Rattle.grammar.specs.Scripts.{script_of, lines_from, first_parse_state, IsScript, IsFirstFault};
ghost use Rattle.grammar.specs.Spelling.{Says, IsReadAgain, kept_words, script_words};

/// A word is a number if and only if it is the printed form of that number. Whole numbers are below
/// 2 to the 64, and signed numbers have 64 bits.
pub fn numbers_have_one_form()
    ensures whole { (word : List ℕ) (n : ℕ) → whole_of word ≡ Some n → word ≡ decimal n }
    ensures whole_again { (n : ℕ) → n < 2 ^ 64 → whole_of (decimal n) ≡ Some n }
    ensures signed { (word : List ℕ) (z : ℤ) → signed_of word ≡ Some z → word ≡ signed_decimal z }
    ensures signed_again { (z : ℤ) → FitsSigned w64 z → signed_of (signed_decimal z) ≡ Some z }
{}

/// A file is a script if and only if all its lines are in order and `start` is among them.
/// Otherwise it has the fault of its first faulty line, and the lines after that one do not matter.
/// If all lines are in order but `start` is missing, the fault is one line past the last.
pub fn first_faults_decide()
    ensures script { (bytes : List ℕ) (t : ScriptModel) → (script_of bytes ≡ Ok t)
        ↔ IsScript (lines_of bytes) t }
    ensures fault { (bytes : List ℕ) (n : ℕ) (refusal : Refusal)
        → (script_of bytes ≡ Err (n, refusal)) ↔ IsFirstFault (lines_of bytes) n refusal }
    ensures later { (before more other : List (List ℕ)) (n : ℕ) (refusal : Refusal)
        → n ≤ length before
        → lines_from 1 first_parse_state (before ++ more) ≡ Err (n, refusal)
        → lines_from 1 first_parse_state (before ++ other) ≡ Err (n, refusal) }
{}

/// A line that is in order is skipped, declares a node, is `start`, or is a command. Unless it is
/// skipped, its words are the printed form of what it says.
pub fn lines_are_spelled()
    ensures { (n : ℕ) (k next : ParseState) (line : List ℕ) → line_of n k line ≡ Ok next
        → Says n k (words_of line) next }
{}

/// The lines of a script that are not skipped have exactly the script's printed words: its nodes,
/// then `start`, then its commands. If these words are read again as lines, they give the same
/// script, for any numbers of the nodes' lines. Each node of a script has a name, and each command
/// is about a node of the kind that it needs.
pub fn scripts_are_spelled()
    ensures words { (bytes : List ℕ) (t : ScriptModel) → script_of bytes ≡ Ok t
        → kept_words (lines_of bytes) ≡ script_words t }
    ensures again { (bytes : List ℕ) (t : ScriptModel) (any : ℕ) → script_of bytes ≡ Ok t
        → IsReadAgain any t }
    ensures whole { (bytes : List ℕ) (t : ScriptModel) → script_of bytes ≡ Ok t → IsWhole t }
{}

/// If lines are joined to a file and the file is cut into lines, the same lines come out. The same
/// holds for words that are joined to a line.
pub fn joined_texts_are_cut_again()
    ensures lines { (lines : List (List ℕ)) → AreLines lines
        → lines_of (joined_lines lines) ≡ lines }
    ensures words { (words : List (List ℕ)) → AreWords words
        → words_of (joined_words words) ≡ words }
    ensures own { (line : List ℕ) → AreWords (words_of line) }
{}
