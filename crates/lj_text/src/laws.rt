ghost use Rattle.std.specs.Prelude.{◌≡◌, ◌+◌, ◌^◌, ◌<◌, ◌≤◌, ℕ, List, ◌∷◌, ◌++◌, Some, IsFalse, decimal, length, map};
ghost use Rattle.std.specs.List.{AllByRecursion, join_with_byte};
ghost use Rattle.lj_text.specs.Fields.{after_each};
ghost use Rattle.lj_text.specs.Lines.{IsLineNumber, IsLineOf, IsPlain, StandFrom, cut_lines, line_text, lines_from};
ghost use Rattle.lj_text.specs.Lines.{placed_from, text_lines, with_feeds};
ghost use Rattle.lj_text.specs.Numbers.{Spells, number_of};
ghost use Rattle.lj_text.specs.Tokens.{ArePlainWords, IsPlainWord, IsTokenOf, IsWord, is_separator, join_by_space};
ghost use Rattle.lj_text.specs.Tokens.{tokens_of, words, words_of};
ghost use Rattle.lj_text.specs.declared.lines.Line.{Line};

/// A number in decimal digits is a word, and reads back.
pub fn decimal_law()
    ensures word { (n : ℕ) → n < 2 ^ 64 → IsWord (decimal n) }
    ensures value { (n : ℕ) → n < 10 ^ 18 → number_of (decimal n) ≡ Some n }
{}

/// Tokens stand within their line. Words that are joined by spaces are the words of the line that they make, in order.
pub fn tokens_law()
    ensures inside { (line : List ℕ) → AllByRecursion (IsTokenOf line) (tokens_of line) }
    ensures words { (ws : List (List ℕ)) → AllByRecursion IsWord ws → words_of (join_by_space ws) ≡ ws }
{}

/// Words without LF and CR that are joined by spaces are a plain line, and lines of such words read back. A number in
/// decimal digits is such a word, and so are such words that a byte joins that is no separator.
pub fn words_law()
    ensures plain { (ws : List (List ℕ)) → ArePlainWords ws → IsPlain (join_by_space ws) }
    ensures reads_back { (lines : List (List (List ℕ))) → AllByRecursion ArePlainWords lines →
        (let bytes = with_feeds (map join_by_space lines) in map (words bytes) (text_lines bytes) ≡ lines) }
    ensures decimal { (n : ℕ) → n < 2 ^ 64 → IsPlainWord (decimal n) }
    ensures joined { (byte : ℕ) (ws : List (List ℕ)) → IsFalse (is_separator byte) → ArePlainWords ws →
        IsPlainWord (join_with_byte byte ws) }
{}

/// Numbers that are joined by spaces are a plain line, whose tokens spell them where they have at most 18 digits.
pub fn number_line_law()
    ensures plain { (ns : List ℕ) → 1 ≤ length ns → AllByRecursion (λ n. n < 2 ^ 64) ns →
        IsPlain (join_by_space (map decimal ns)) }
    ensures spelled { (ns : List ℕ) → AllByRecursion (λ n. n < 10 ^ 18) ns →
        (let line = join_by_space (map decimal ns) in Spells line (tokens_of line) ns) }
{}

/// Fields that are joined by a byte are the first of them, and the others each after the byte.
pub fn fields_law()
    ensures { (byte : ℕ) (field : List ℕ) (fields : List (List ℕ)) →
        join_with_byte byte (field ∷ fields) ≡ field ++ after_each byte fields }
{}

/// Lines stand within their text, each after the one before. Plain lines with LF after each are the lines of the text
/// that they make, in order. A plain line before LF is the first, and the others are those of what follows.
pub fn lines_law()
    ensures inside { (bytes : List ℕ) → AllByRecursion (IsLineOf bytes) (text_lines bytes) }
    ensures order { (bytes : List ℕ) → StandFrom bytes 0 (text_lines bytes) }
    ensures plain { (lines : List (List ℕ)) → AllByRecursion IsPlain lines →
        (let bytes = with_feeds lines in map (line_text bytes) (text_lines bytes) ≡ lines) }
    ensures places { (lines : List (List ℕ)) → AllByRecursion IsPlain lines →
        text_lines (with_feeds lines) ≡ placed_from 1 0 lines }
    ensures first { (line rest : List ℕ) → IsPlain line →
        text_lines (line ++ 10 ∷ rest)
        ≡ record { number = 1; start = 0; stop = length line } ∷ lines_from 2 (length line + 1) (cut_lines rest) }
{}

/// Lines that stand in their text from a place on, each after the one before, stand so from each earlier place on. The
/// lines after some of them stand so too, and each line stands within its text.
pub fn line_order_law()
    ensures earlier { (bytes : List ℕ) (place other : ℕ) (lines : List Line) → other ≤ place →
        StandFrom bytes place lines → StandFrom bytes other lines }
    ensures rest { (bytes : List ℕ) (place : ℕ) (some others : List Line) → StandFrom bytes place (some ++ others) →
        StandFrom bytes place others }
    ensures inside { (bytes : List ℕ) (place : ℕ) (lines : List Line) → StandFrom bytes place lines →
        AllByRecursion (IsLineOf bytes) lines }
{}

/// The lines of a text that are not blank have numbers of its lines: from 1, blank ones counted.
pub fn line_numbers_law()
    ensures { (bytes : List ℕ) → AllByRecursion (λ line. IsLineNumber bytes line.number) (text_lines bytes) }
{}
