ghost use Rattle.std.specs.Prelude.{◌≡◌, ◌⊎◌, ℕ, ◌+◌, ◌<◌, ◌≤◌, if◌then◌else◌, [], ◌∷◌, ◌++◌, None, Some, drop, length};
ghost use Rattle.std.specs.Prelude.{IfNone, IfSome};
ghost use Rattle.std.specs.Option.{option_to_list};
ghost use Rattle.lj_cli.specs.Given.{IsFew, all_numbers, given_by, joined, kind_of, nothing};
ghost use Rattle.lj_cli.specs.GoodWords.{texts};
ghost use Rattle.lj_text.specs.Numbers.{number_of};

use lj_text::number;
use std::marker::Model;

/// What the words after a command's name give: no command takes more than three numbers, and each option once.
#[derive(Debug, Drop)]
pub struct Given {
    numbers: [u64; 3],
    count: usize,
    workers: Option<u64>,
    json: bool,
}

impl Model for Given {
    ghost use Rattle.std.specs.Prelude.{◌≡◌, ◌≤◌, if◌then◌else◌, take};
    ghost use Rattle.std.specs.Option.{option_to_list};
    ghost use Rattle.lj_cli.specs.Given.{Arguments};

    ghost Value = { Arguments };

    ghost view = { λ g. record {
      numbers = take g.count g.numbers;
      workers = option_to_list g.workers;
      json = if g.json then 1 else 0;
    } };

    ghost invariant = { λ g. g.count ≤ 3 };
}

// What a word is to the words before it.
#[derive(Clone, Copy, Debug, PartialEq, Eq)]
pub(crate) enum Kind {
    /// `--`: each word after it is positional.
    End,
    /// `--workers`: the next word is the value.
    Workers,
    /// `--workers=`: the value is the rest of the word.
    WorkersValue,
    Json,
    Unknown,
    Positional,
}

impl Given {
    fn nothing() -> Given
        ensures { result ≡ nothing }
    {
        Given {
            numbers: [0; 3],
            count: 0,
            workers: None,
            json: false,
        }
    }

    /// The positional words.
    pub fn numbers(&self) -> &[u64]
        ensures { result.now ≡ self.now.numbers }
    {
        &self.numbers[..self.count]
    }

    pub fn workers(&self) -> Option<u64>
        ensures { option_to_list result ≡ self.now.workers }
    {
        self.workers
    }

    pub fn json(&self) -> bool
        ensures { self.now.json ≡ (if result then 1 else 0) }
    {
        self.json
    }

    fn add_number(&mut self, word: &[u8]) -> Option<()>
        ensures some { IfSome result (λ _. (n : ℕ) × (number_of word.now ≡ Some n)
            × (self.new ≡ record self.old { numbers = self.old.numbers ++ n ∷ [] })) }
        ensures none { IfNone result ((number_of word.now ≡ None) ⊎ (length self.old.numbers ≡ 3)) }
    {
        let n = number(word).ok()?;
        if self.count == 3 {
            return None;
        }
        self.numbers[self.count] = n;
        self.count += 1;
        Some(())
    }

    fn add_workers(&mut self, word: &[u8]) -> Option<()>
        ensures some { IfSome result (λ _. (n : ℕ) × (number_of word.now ≡ Some n)
            × (self.new ≡ record self.old { workers = self.old.workers ++ n ∷ [] })) }
        ensures none { IfNone result ((number_of word.now ≡ None) ⊎ (length self.old.workers ≡ 1)) }
    {
        let n = number(word).ok()?;
        if self.workers.is_some() {
            return None;
        }
        self.workers = Some(n);
        Some(())
    }

    fn add_json(&mut self) -> Option<()>
        ensures some { IfSome result (λ _. self.new ≡ record self.old { json = self.old.json + 1 }) }
        ensures none { IfNone result (self.old.json ≡ 1) }
    {
        if self.json {
            return None;
        }
        self.json = true;
        Some(())
    }
}

/// What the words give, from left to right: a number or value that is none, an unknown option, an option given twice
/// or a fourth number give nothing.
pub fn read_given(words: &[String]) -> Option<Given>
    ensures some { IfSome result (λ g. given_by (texts words.now) ≡ Some g) }
    ensures none { IfNone result (IfSome (given_by (texts words.now)) (λ g. IsFew g → ⊥)) }
{
    let mut given = Given::nothing();
    let mut left = words;
    while let [word, rest @ ..] = left {
        let used = add_first(&mut given, word.as_bytes(), rest)?;
        left = rest.split_at(used).1;
    }
    Some(given)
}

// Adds what a word gives, with the next one if that is its value, or with all after it where it ends the options.
// Returns how many of the words after it were taken.
fn add_first(given: &mut Given, word: &[u8], rest: &[String]) -> Option<usize>
    ensures some { IfSome result (λ n. (n ≤ length rest.now)
        × (joined given.old (given_by (word.now ∷ texts rest.now))
        ≡ joined given.new (given_by (texts (drop n rest.now))))) }
    ensures none { IfNone result
        (IfSome (joined given.old (given_by (word.now ∷ texts rest.now))) (λ g. IsFew g → ⊥)) }
{
    match kind_of(word) {
        Kind::End => {
            add_numbers(given, rest)?;
            return Some(rest.len());
        }
        Kind::Workers => {
            let value = rest.first()?;
            given.add_workers(value.as_bytes())?;
            return Some(1);
        }
        Kind::WorkersValue => given.add_workers(&word[WORKERS.len()..])?,
        Kind::Json => given.add_json()?,
        Kind::Unknown => return None,
        Kind::Positional => given.add_number(word)?,
    }
    Some(0)
}

// Adds words that are all positional.
fn add_numbers(given: &mut Given, words: &[String]) -> Option<()>
    ensures some { IfSome result (λ _. joined given.old (all_numbers (texts words.now)) ≡ Some given.new) }
    ensures none { IfNone result (IfSome (joined given.old (all_numbers (texts words.now))) (λ g. IsFew g → ⊥)) }
{
    for word in words {
        given.add_number(word.as_bytes())?;
    }
    Some(())
}

const WORKERS: &str = "--workers=";

fn kind_of(word: &[u8]) -> Kind
    ensures kind { result ≡ kind_of word.now }
    ensures long { result ≡ Kind.WorkersValue → 10 ≤ length word.now }
{
    if word == b"--".as_slice() {
        Kind::End
    } else if word == b"--workers".as_slice() {
        Kind::Workers
    } else if word.starts_with(WORKERS.as_bytes()) {
        Kind::WorkersValue
    } else if word == b"--json".as_slice() {
        Kind::Json
    } else if word.starts_with(b"-") {
        Kind::Unknown
    } else {
        Kind::Positional
    }
}
