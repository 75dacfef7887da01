ghost use Rattle.std.specs.Prelude.{◌≡◌, ℕ, ◌++◌, MatchResult, OnOk};
ghost use Rattle.lj_text.specs.Inputs.{HasCause};
ghost use Rattle.lj_cli.specs.CountOutput.{number_line};
ghost use Rattle.lj_cli.specs.Ends.{EndsEarly, Prints, PrintsNothing, output_of, too_large_text, usage_text};

use crate::status::{BAD_WORDS, NO_MEMORY, READ_FAILED, TOO_LARGE, WRITE_FAILED};
use lj_base::{Memory, Sink};
use lj_text::{ReadFail, put, put_named, write_all};

// A text to print, and the status to end with.
#[derive(Drop)]
pub(crate) struct Made {
    pub text: Vec<u8>,
    pub status: u8,
}

// Prints the text. Returns the status that it is given, or that writing failed.
pub(crate) fn print<K: Sink>(out: &mut K, text: &[u8], status: u8) -> u8
    ensures { Prints (output_of K.written K.faults out.old out.new) text.now status result }
{
    match write_all(out, text) {
        Ok(()) => status,
        Err(_) => WRITE_FAILED,
    }
}

// Prints what was made. Returns the status: that which belongs to it, that writing failed, or that memory ran out.
pub(crate) fn print_made<K: Sink>(out: &mut K, made: Result<Made, Memory>) -> u8
    ensures { MatchResult made
        (λ m. Prints (output_of K.written K.faults out.old out.new) m.text.items m.status result)
        (λ _. PrintsNothing (output_of K.written K.faults out.old out.new) result) }
{
    match made {
        Ok(made) => print(out, &made.text, made.status),
        Err(Memory) => NO_MEMORY,
    }
}

// Ends where not all of an input was read. Returns the status.
pub(crate) fn end_early<K: Sink>(out: &mut K, fail: ReadFail) -> u8
    ensures { (limit : ℕ) (i : _) → HasCause limit i.left i.left_now i.faults i.faults_now fail →
        EndsEarly limit i (output_of K.written K.faults out.old out.new) result }
{
    match fail {
        ReadFail::ReadFault { .. } => READ_FAILED,
        ReadFail::TooLarge => print_too_large(out),
        ReadFail::Memory => NO_MEMORY,
    }
}

fn print_too_large<K: Sink>(out: &mut K) -> u8
    ensures { Prints (output_of K.written K.faults out.old out.new) too_large_text TOO_LARGE result }
{
    print(out, b"fault input too large\n", TOO_LARGE)
}

// Prints which words call for which command.
pub(crate) fn print_usage<K: Sink>(out: &mut K) -> u8
    ensures { Prints (output_of K.written K.faults out.old out.new) usage_text BAD_WORDS result }
{
    print(
        out,
        b"usage: ljcr check V K T [--workers N] | build [--json] | serve --workers N [--json] | gen M \
        | big M --workers N | excess V K T | greedy V K T | reduce V K T | certify | audit [--workers N]\n",
        BAD_WORDS,
    )
}

// Appends a word, a number and the end of the line.
pub(crate) fn put_line(out: &mut Vec<u8>, word: &[u8], n: u64) -> Result<(), Memory>
    ensures { OnOk result (out.new.items ≡ out.old.items ++ number_line word.now n) }
{
    put_named(out, word, &[n])?;
    put(out, b"\n")
}
