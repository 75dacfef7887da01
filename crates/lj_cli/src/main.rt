//! The program `ljcr`: checks whether blocks cover every set of points of a cell, replies to the clients of a script
//! with the least bounds that follow from their uploads, one after the other or all at once, writes generated scripts,
//! counts the sets of coverings, makes coverings, and removes spare blocks.
#![tactic(auto)]

mod audit;
mod audit_lines;
mod big;
mod build;
#[cfg(test)]
mod build_rows;
mod cert_laws;
#[cfg(test)]
mod cert_rows;
mod certify;
mod check;
#[cfg(test)]
mod count_rows;
mod coverings;
mod excess;
#[cfg(test)]
mod failing_rows;
#[cfg(test)]
mod gate_rows;
mod generate;
mod given;
mod greedy;
mod laws;
mod limits;
mod prints;
mod reduce;
mod replies;
#[cfg(test)]
mod rows;
mod script_faults;
mod serve;
mod serve_laws;
#[cfg(test)]
mod serve_rows;
mod served;
mod status;
#[cfg(test)]
mod stream_rows;
mod top;
mod verdicts;
#[cfg(test)]
mod word_rows;
mod words;

pub use audit::audit_run;
pub use big::big_run;
pub use build::build_run;
pub use cert_laws::{audit_output_law, cert_complete_law, certify_output_law};
pub use certify::certify_run;
pub use check::check_run;
pub use excess::excess_run;
pub use generate::gen_run;
pub use given::{Given, read_given};
pub use greedy::greedy_run;
pub use laws::{
    build_complete_law, build_output_law, complete_law, count_law, count_output_law, output_law,
    words_law,
};
pub use limits::MAX_CERT_INPUT;
use lj_base::{StdSink, StdSource};
use lj_gate::FreeGate;
pub use reduce::reduce_run;
pub use serve::serve_run;
pub use serve_laws::{equal_reports_law, headline_law, serve_complete_law, served_whole_law};
pub use status::{
    BAD_WORDS, DONE, FAULTY, NO_MEMORY, NO_WORDS, NOT_GOOD, READ_FAILED, TOO_LARGE, UNCOVERED,
    WRITE_FAILED,
};
use std::process::ExitCode;
use std::{env, io};
pub use top::ljcr;
pub use verdicts::Verdict;
pub use words::{BigCall, Call, CheckCall, ServeCall, read_words};

fn main(rt: HostRuntime) -> ExitCode {
    let Ok(args) = env::args(&rt) else {
        return ExitCode::from(NO_WORDS);
    };
    let words: Vec<String> = match args.skip(1).collect(rt.alloc()) {
        Ok(words) => words,
        Err(_) => return ExitCode::from(NO_WORDS),
    };
    let mut input = StdSource::new(rt.reader());
    let mut out = StdSink::new(io::writer(&rt));
    ExitCode::from(ljcr(&rt, rt.alloc(), &words, &mut input, &mut out, &FreeGate))
}
