ghost use Rattle.std.specs.Prelude.{◌≡◌, ◌∷◌, [], IfOk};
ghost use Rattle.std.specs.List.{Contains};

use crate::scripts::{FRAME, SEVEN, script_of};
use lj_board::Pass;
use lj_gate::{Accepting, FreeGate, Ran, Serving, run};
use lj_history::History;
use lj_script::{Script, Section};
use lj_session::{Session, SessionEnd};
use lj_shared::Shared;
use std::alloc::Global;
use std::marker::Brand;
use std::sync::Wait;
use std::test::Fail;
use std::thread::Threads;

// Runs each section of a script alone, one after the other, over one table. The replies to all.
fn run_each<S: Serving + Send + Sync, R: Threads + Wait + Sync>(
    rt: &R,
    alloc: Global,
    script: Script,
    history: History,
) -> Result<Vec<u8>, Fail>
    requires frame { S.frame ≡ script.frame }
    requires sections { S.sections ≡ script.clients }
    requires named { history.history ≡ S.history }
    requires new { history.changes ≡ [] }
{
    let Script { frame, clients } = script;
    let (shared, mut pass) = Shared::<Accepting<S>>::start(alloc, frame, 1, history)?;
    let mut replies = Vec::new(alloc);
    for section in clients.into_vec() {
        let ran = run_alone(rt, alloc, &shared, section, &mut pass)?;
        put_replies(&mut replies, ran.ends.items())?;
    }
    Ok(replies)
}

fn put_replies(replies: &mut Vec<u8>, ends: &[SessionEnd]) -> Result<(), Fail> {
    for end in ends {
        replies.extend_from_slice(end.replies.items())?;
    }
    Ok(())
}

fn run_alone<S: Serving + Send + Sync, R: Threads + Wait + Sync>(
    rt: &R,
    alloc: Global,
    shared: &Shared<Accepting<S>>,
    section: Section,
    pass: &mut Pass,
) -> Result<Ran, Fail>
    requires section { Contains S.sections section }
    requires pass { pass.old.board ≡ shared.now }
    ensures { pass.new ≡ pass.old }
{
    let passes = two_of(alloc, shared, pass)?;
    let frame = shared.frame();
    let session = Session::start(alloc, frame, section, 1)?;
    let mut sessions = Vec::new(alloc);
    sessions.push(session)?;
    Ok(run(rt, alloc, shared, sessions, passes, 1, &FreeGate)?)
}

// Two passes, which have seen what this one has.
fn two_of<S: Serving>(
    alloc: Global,
    shared: &Shared<Accepting<S>>,
    pass: &mut Pass,
) -> Result<Vec<Pass>, Fail>
    requires { pass.old.board ≡ shared.now }
    ensures passes { IfOk result (λ passes. passes.items ≡ pass.old ∷ pass.old ∷ []) }
    ensures same { pass.new ≡ pass.old }
{
    let first = pass.split(shared.board());
    let second = pass.split(shared.board());
    let mut passes = Vec::new(alloc);
    passes.push(first)?;
    passes.push(second)?;
    Ok(passes)
}

// The second client reads what the first one has uploaded in a run before, over the same table.
#[test]
fn a_client_reads_what_another_has_uploaded(rt: HostRuntime) -> Result<(), Fail> {
    let alloc = rt.alloc();
    let bob = "client bob\nsettle\nbound 7 3 2\nplan 7 3 2\n";
    let script = script_of(alloc, &[FRAME, "client ann\n", SEVEN, bob])?;
    let history = History::start(alloc)?;
    let replies = run_each::<Brand, _>(&rt, alloc, script, history)?;
    let want = "accepted 1 7\nsettled\nbound 7 3 2 7\nplan 7 3 2 7\n1 leaf 7 3 2 7 ann 1\nend\n";
    assert!(rt; replies.as_slice() == want.as_bytes());
    Ok(())
}
