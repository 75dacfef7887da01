ghost use Rattle.std.specs.Prelude.{IfNone, IfSome};
ghost use Rattle.lj_cli.specs.GoodWords.{GoodWords, IsAuditCall, IsBigCall, IsBuildCall, IsCall, IsCellCall};
ghost use Rattle.lj_cli.specs.GoodWords.{IsCertifyCall, IsCheckCall, IsGenCall, IsServeCall, texts};

use crate::given::{Given, read_given};
use lj_base::Cell;
use lj_gen::{MAX_DIMENSION, MIN_DIMENSION};
use lj_verify::MAX_WORKERS;

/// A check whether the blocks of the input cover the cell, by a number of threads.
#[derive(Clone, Copy, Debug, PartialEq, Eq)]
pub struct CheckCall {
    pub cell: Cell,
    pub workers: u64,
}

/// A script is served with a number of workers; its report is JSON or text.
#[derive(Clone, Copy, Debug, PartialEq, Eq)]
pub struct ServeCall {
    pub workers: u64,
    pub json: bool,
}

/// The generated script of `2 ^ m` points is served with a number of workers.
#[derive(Clone, Copy, Debug, PartialEq, Eq)]
pub struct BigCall {
    pub m: u64,
    pub workers: u64,
}

/// A command with its numbers and flags.
#[derive(Clone, Copy, Debug, PartialEq, Eq)]
pub enum Call {
    Check(CheckCall),
    /// Builds the script of the input; its report is JSON or text.
    Build { json: bool },
    Serve(ServeCall),
    /// Prints the generated script of `2 ^ m` points.
    Gen { m: u64 },
    Big(BigCall),
    /// Prints by how much the blocks of the input exceed a covering of each set once.
    Excess { cell: Cell },
    /// Prints the greedy covering of the cell.
    Greedy { cell: Cell },
    /// Prints the blocks of the input without the spare ones.
    Reduce { cell: Cell },
    /// Prints the certificate of the script of the input.
    Certify,
    /// Prints whether the certificate of the input is good; the work is shared out among a number of threads.
    Audit { workers: u64 },
}

/// The command that the words after the program's name call for.
pub fn read_words(words: &[String]) -> Option<Call>
    ensures good { IfSome result (GoodWords (texts words.now)) }
    ensures bad { IfNone result ((call : _) → GoodWords (texts words.now) call → ⊥) }
{
    let (name, rest) = words.split_first()?;
    let given = read_given(rest)?;
    call_of(name.as_str(), &given)
}

// The call of a command by its name, with what the words after it give.
fn call_of(name: &str, given: &Given) -> Option<Call>
    ensures good { IfSome result (IsCall name.now given.now) }
    ensures bad { IfNone result ((call : _) → IsCall name.now given.now call → ⊥) }
{
    if name == "check" {
        let call = check_call(given)?;
        Some(Call::Check(call))
    } else if name == "build" {
        let json = build_call(given)?;
        Some(Call::Build { json })
    } else if name == "serve" {
        let call = serve_call(given)?;
        Some(Call::Serve(call))
    } else if name == "gen" {
        let m = gen_call(given)?;
        Some(Call::Gen { m })
    } else if name == "big" {
        let call = big_call(given)?;
        Some(Call::Big(call))
    } else if name == "excess" {
        let cell = cell_call(given)?;
        Some(Call::Excess { cell })
    } else if name == "greedy" {
        let cell = cell_call(given)?;
        Some(Call::Greedy { cell })
    } else if name == "reduce" {
        let cell = cell_call(given)?;
        Some(Call::Reduce { cell })
    } else if name == "certify" {
        certify_call(given)?;
        Some(Call::Certify)
    } else if name == "audit" {
        let workers = audit_call(given)?;
        Some(Call::Audit { workers })
    } else {
        None
    }
}

// check V K T [--workers N]
fn check_call(given: &Given) -> Option<CheckCall>
    ensures good { IfSome result (IsCheckCall given.now) }
    ensures bad { IfNone result ((call : _) → IsCheckCall given.now call → ⊥) }
{
    let [v, k, t] = given.numbers() else {
        return None;
    };
    let cell = Cell::new(*v, *k, *t).ok()?;
    let workers = given.workers().unwrap_or(1);
    if cell.k >= 1 && 1 <= workers && workers <= MAX_WORKERS && !given.json() {
        Some(CheckCall { cell, workers })
    } else {
        None
    }
}

// V K T
fn cell_call(given: &Given) -> Option<Cell>
    ensures good { IfSome result (IsCellCall given.now) }
    ensures bad { IfNone result ((cell : _) → IsCellCall given.now cell → ⊥) }
{
    let [v, k, t] = given.numbers() else {
        return None;
    };
    let cell = Cell::new(*v, *k, *t).ok()?;
    if cell.k >= 1 && given.workers().is_none() && !given.json() {
        Some(cell)
    } else {
        None
    }
}

// build [--json]: whether JSON is asked for.
fn build_call(given: &Given) -> Option<bool>
    ensures good { IfSome result (IsBuildCall given.now) }
    ensures bad { IfNone result ((json : _) → IsBuildCall given.now json → ⊥) }
{
    let [] = given.numbers() else {
        return None;
    };
    if given.workers().is_none() {
        Some(given.json())
    } else {
        None
    }
}

// serve --workers N [--json]
fn serve_call(given: &Given) -> Option<ServeCall>
    ensures good { IfSome result (IsServeCall given.now) }
    ensures bad { IfNone result ((call : _) → IsServeCall given.now call → ⊥) }
{
    let [] = given.numbers() else {
        return None;
    };
    let workers = given.workers()?;
    if 1 <= workers && workers <= MAX_WORKERS {
        Some(ServeCall {
            workers,
            json: given.json(),
        })
    } else {
        None
    }
}

// gen M
fn gen_call(given: &Given) -> Option<u64>
    ensures good { IfSome result (IsGenCall given.now) }
    ensures bad { IfNone result ((m : _) → IsGenCall given.now m → ⊥) }
{
    let [m] = given.numbers() else {
        return None;
    };
    if MIN_DIMENSION <= *m && *m <= MAX_DIMENSION && given.workers().is_none() && !given.json() {
        Some(*m)
    } else {
        None
    }
}

// big M --workers N
fn big_call(given: &Given) -> Option<BigCall>
    ensures good { IfSome result (IsBigCall given.now) }
    ensures bad { IfNone result ((call : _) → IsBigCall given.now call → ⊥) }
{
    let [m] = given.numbers() else {
        return None;
    };
    let m = *m;
    let workers = given.workers()?;
    if MIN_DIMENSION <= m
        && m <= MAX_DIMENSION
        && 1 <= workers
        && workers <= MAX_WORKERS
        && !given.json()
    {
        Some(BigCall { m, workers })
    } else {
        None
    }
}

// certify
fn certify_call(given: &Given) -> Option<()>
    ensures good { IfSome result (λ _. IsCertifyCall given.now) }
    ensures bad { IfNone result (IsCertifyCall given.now → ⊥) }
{
    let [] = given.numbers() else {
        return None;
    };
    if given.workers().is_none() && !given.json() {
        Some(())
    } else {
        None
    }
}

// audit [--workers N]: the number of workers.
fn audit_call(given: &Given) -> Option<u64>
    ensures good { IfSome result (IsAuditCall given.now) }
    ensures bad { IfNone result ((workers : _) → IsAuditCall given.now workers → ⊥) }
{
    let [] = given.numbers() else {
        return None;
    };
    let workers = given.workers().unwrap_or(1);
    if 1 <= workers && workers <= MAX_WORKERS && !given.json() {
        Some(workers)
    } else {
        None
    }
}
