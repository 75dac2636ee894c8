// The workers: threads, each of which runs a processor.
ghost use Rattle.std.specs.Prelude.{◌≡◌, ◌+◌, ◌≤◌, ◌++◌, ◌∷◌, ◌<◌, [], List, true, All, IfSome, IfOk, map, vec_len, vec_capacity};
ghost use Rattle.std.specs.Thread.{IsSync};
ghost use Rattle.pyr_num.specs.declared.limits.TheConstants.Limits.{PROCESSORS};
ghost use Rattle.pyr_proc.specs.Seated.{Seated, HasRun};
ghost use Rattle.pyr_team.specs.Workers.{IsReady, seat_of, AllRan};

use crate::gate::Gate;
use pyr_machine::Loaded;
use pyr_num::ProcId;
use pyr_proc::{Pace, Seat};
use std::alloc::{AllocError, Global};
use std::snapshot::Snapshot;
use std::sync::Wait;
use std::thread;
use std::thread::{Promise, PromisedHandle, Scope, Threads};

/// The promise of a worker: a seat comes back, and has run frame 0 where the worker says so.
#[derive(Drop)]
pub struct RunOf {
    seat: Snapshot<Seat>,
}

impl Promise<(Seat, bool)> for RunOf {
    ghost use Rattle.std.specs.Prelude.{◌≡◌, true};
    ghost use Rattle.pyr_proc.specs.Seated.{HasRun};

    ghost kept_by = { λ p r. r.1 ≡ true → HasRun 0 p.seat.value r.0 };
}

type Handle = PromisedHandle<(Seat, bool), RunOf>;

// What the thread of a worker does: it waits at the gate, and runs where that opens.
fn work<P: Pace, R: Wait>(
    rt: &R,
    gate: &Gate,
    loaded: &Loaded,
    pace: &P,
    mut seat: Seat,
) -> (Seat, bool)
    requires { IsReady loaded.now.bundle seat }
    ensures { result.1 ≡ true → HasRun 0 seat result.0 }
{
    let goes = gate.passes(rt);
    if goes {
        seat.run(rt, loaded, 0, pace);
    }
    (seat, goes)
}

// Starts a worker in a scope, if it can be started.
fn start<'s, 'e, P: Pace, R: Threads + Wait + Sync>(
    scope: &Scope<'s, &'e ()>,
    rt: &'s R,
    gate: &'s Gate,
    loaded: &'s Loaded,
    pace: &'s P,
    seat: Seat,
) -> Option<Handle>
    requires { IsReady loaded.now.bundle seat }
    ensures { IfSome result (λ h. seat_of h ≡ seat) }
{
    let promise = RunOf {
        seat: Snapshot::of(&seat),
    };
    scope
        .spawn_with(
            promise,
            move || -> (Seat, bool)
                requires { IsSync P.row × IsReady loaded.now.bundle seat }
                ensures { result.1 ≡ true → HasRun 0 seat result.0 }
            { work(rt, gate, loaded, pace, seat) },
        )
        .ok()
}

// Starts the worker of a processor in a scope, if it is to start and can be started.
fn start_allowed<'s, 'e, P: Pace, R: Threads + Wait + Sync>(
    scope: &Scope<'s, &'e ()>,
    rt: &'s R,
    gate: &'s Gate,
    loaded: &'s Loaded,
    pace: &'s P,
    p: ProcId,
    seat: Seat,
) -> Option<Handle>
    requires { IsReady loaded.now.bundle seat }
    ensures { IfSome result (λ h. seat_of h ≡ seat) }
{
    if pace.allow_start(p) {
        start(scope, rt, gate, loaded, pace, seat)
    } else {
        None
    }
}

// Starts a worker for each seat, of which the first is that of processor 1. False where one wasn't to
// start, or couldn't be started.
fn start_all<'s, 'e, P: Pace, R: Threads + Wait + Sync>(
    scope: &Scope<'s, &'e ()>,
    rt: &'s R,
    gate: &'s Gate,
    loaded: &'s Loaded,
    pace: &'s P,
    seats: Vec<Seat>,
    handles: &mut Vec<Handle>,
) -> bool
    requires ready { All (IsReady loaded.now.bundle) seats.items }
    requires few { vec_len seats < PROCESSORS }
    requires room { vec_len seats ≤ vec_capacity handles.old }
    requires empty { handles.old.items ≡ [] }
    ensures promised { result ≡ true → map seat_of handles.new.items ≡ seats.items }
    ensures few { vec_len handles.new ≤ vec_len seats }
{
    let mut all = true;
    let mut number = 0;
    for seat in seats {
        number += 1;
        let Some(handle) = start_allowed(scope, rt, gate, loaded, pace, ProcId(number), seat) else {
            all = false;
            continue;
        };
        handles.push_reserved(handle);
    }
    all
}

// Joins the workers. True if each of them ran.
fn join_all<R: Threads>(rt: &R, handles: Vec<Handle>, done: &mut Vec<Seat>) -> bool
    requires room { vec_len done.old + vec_len handles ≤ vec_capacity done.old }
    ensures { result ≡ true → (seats : List Seated) → AllRan seats done.old.items
        → AllRan (seats ++ map seat_of handles.items) done.new.items }
{
    let mut all = true;
    for handle in handles {
        let (seat, ran) = handle.join(rt);
        all = all && ran;
        done.push_reserved(seat);
    }
    all
}

// Room for the handles of so many workers, and for their seats and one more.
fn rooms(alloc: Global, workers: usize) -> Result<(Vec<Handle>, Vec<Seat>), AllocError>
    requires { workers < PROCESSORS }
    ensures handles { IfOk result (λ r. (workers ≤ vec_capacity r.0) × (r.0.items ≡ [])) }
    ensures seats { IfOk result (λ r. (workers + 1 ≤ vec_capacity r.1) × (r.1.items ≡ [])) }
{
    let handles = Vec::with_capacity(alloc, workers)?;
    let done = Vec::with_capacity(alloc, workers + 1)?;
    Ok((handles, done))
}

// Runs the first seat, and joins the workers. None where they didn't all run.
fn run_and_join<P: Pace, R: Threads + Wait + Sync>(
    rt: &R,
    loaded: &Loaded,
    mut first: Seat,
    handles: Vec<Handle>,
    mut done: Vec<Seat>,
    pace: &P,
) -> Option<Vec<Seat>>
    requires ready { IsReady loaded.now.bundle first }
    requires room { vec_len handles + 1 ≤ vec_capacity done }
    requires empty { done.items ≡ [] }
    ensures { IfSome result (λ ran. AllRan (first ∷ map seat_of handles.items) ran.items) }
{
    first.run(rt, loaded, 0, pace);
    done.push_reserved(first);
    join_all(rt, handles, &mut done).then_some(done)
}

// Runs the first seat here, and the others in a scope. None where they didn't all run.
fn in_scope<'s, 'e, P: Pace, R: Threads + Wait + Sync>(
    scope: &Scope<'s, &'e ()>,
    rt: &'s R,
    alloc: Global,
    gate: &'s Gate,
    loaded: &'s Loaded,
    first: Seat,
    others: Vec<Seat>,
    pace: &'s P,
) -> Result<Option<Vec<Seat>>, AllocError>
    requires ready { All (IsReady loaded.now.bundle) (first ∷ others.items) }
    requires few { vec_len others < PROCESSORS }
    ensures { IfOk result (λ r. IfSome r (λ ran. AllRan (first ∷ others.items) ran.items)) }
{
    let (mut handles, mut done) = rooms(alloc, others.len())?;
    let all_started = start_all(scope, rt, gate, loaded, pace, others, &mut handles);
    gate.decide(rt, all_started);
    if !all_started {
        join_all(rt, handles, &mut done);
        return Ok(None);
    }
    Ok(run_and_join(rt, loaded, first, handles, done, pace))
}

/// Runs frame 0 of the seats, by rising number: the first one here, and each other on a thread of its
/// own. None where one of them wasn't to start or couldn't be started; then none was run. All memory
/// is taken before the first of them runs.
pub fn run_seats<P: Pace, R: Threads + Wait + Sync>(
    rt: &R,
    alloc: Global,
    loaded: &Loaded,
    first: Seat,
    others: Vec<Seat>,
    pace: &P,
) -> Result<Option<Vec<Seat>>, AllocError>
    requires ready { All (IsReady loaded.now.bundle) (first ∷ others.items) }
    requires few { vec_len others < PROCESSORS }
    ensures { IfOk result (λ r. IfSome r (λ ran. AllRan (first ∷ others.items) ran.items)) }
{
    let gate = Gate::new();
    let at = &gate;
    thread::scope(
        thread::scope_env(),
        rt,
        |scope| -> Result<Option<Vec<Seat>>, AllocError>
            requires { IsSync P.row × IsSync R.row × All (IsReady loaded.now.bundle) (first ∷ others.items)
                × (vec_len others < PROCESSORS) }
            ensures { IfOk result (λ r. IfSome r (λ ran. AllRan (first ∷ others.items) ran.items)) }
        { in_scope(scope, rt, alloc, at, loaded, first, others, pace) },
    )
}
