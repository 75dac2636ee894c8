// Runs a team.
ghost use Rattle.std.specs.Prelude.{◌≡◌, ◌+◌, ◌∷◌, ◌++◌, ◌<◌, ◌≤◌, [], ◌⊎◌, IfOk, IfSome, length, vec_len, vec_capacity};
ghost use Rattle.std.specs.Vec.Iter.{into_iter_items};
ghost use Rattle.pyr_machine.specs.Good.{Prints};
ghost use Rattle.pyr_machine.specs.Machine.{start};
ghost use Rattle.pyr_machine.specs.State.{state_world};
ghost use Rattle.pyr_proc.specs.Seated.{AreFresh};
ghost use Rattle.pyr_team.specs.Homes.{AreHomes, AreCopied};
ghost use Rattle.pyr_team.specs.Team.{HaveRun};

use crate::homes::homes;
use crate::printing::{blank, outputs_of};
use crate::workers::run_seats;
use pyr_bundle::Bundle;
use pyr_machine::{Loaded, State};
use pyr_num::{Outputs, ProcId, Words};
use pyr_proc::{Pace, Processor, Seat};
use std::alloc::{AllocError, Global};
use std::sync::Wait;
use std::thread::Threads;
use std::vec::IntoIter;

/// What the run of a team gives.
#[derive(Drop)]
pub struct Team<'a> {
    /// The words of each printed datum, in the order of the prints.
    pub outputs: Outputs,
    /// The processors by rising number, each of which has run; or none, where the step machine made
    /// the run.
    pub ran: Vec<Processor<'a>>,
}

// Adds the seats of these processors.
fn add_seats(processors: IntoIter<Processor<'_>>, seats: &mut Vec<Seat>)
    requires room { vec_len seats.old + length (into_iter_items processors)
        ≤ vec_capacity seats.old }
    ensures { seats.new.items ≡ seats.old.items ++ into_iter_items processors.entry }
{
    for processor in processors {
        seats.push_reserved(processor.into_seat());
    }
}

// The seats of these processors: that of the first, and those of the others.
fn seats_of(alloc: Global, processors: Vec<Processor<'_>>) -> Result<(Seat, Vec<Seat>), AllocError>
    requires { 0 < vec_len processors }
    ensures { IfOk result (λ r. r.0 ∷ r.1.items ≡ processors.entry.items) }
{
    let mut others = Vec::with_capacity(alloc, processors.len())?;
    let mut processors = processors.into_iter();
    let Some(first) = processors.next() else {
        unreachable!()
    };
    add_seats(processors, &mut others);
    Ok((first.into_seat(), others))
}

// Runs frame 0 of the processors, each but the first on a thread of its own. None where one of them
// wasn't to start or couldn't be started.
fn run_processors<'a, P: Pace, R: Threads + Wait + Sync>(
    rt: &R,
    alloc: Global,
    loaded: &'a Loaded,
    processors: Vec<Processor<'a>>,
    pace: &P,
) -> Result<Option<Vec<Processor<'a>>>, AllocError>
    requires { AreFresh loaded.now.bundle 1 processors.items }
    ensures { IfOk result (λ r. IfSome r (λ ran. HaveRun loaded.now.bundle ran.items)) }
{
    loaded.bundle().well_formed();
    let ran = Vec::with_capacity(alloc, processors.len())?;
    let (first, others) = seats_of(alloc, processors)?;
    match run_seats(rt, alloc, loaded, first, others, pace)? {
        Some(seats) => Ok(Some(Processor::all_seated(loaded, seats, ran))),
        None => Ok(None),
    }
}

// The homes of the data, and a list for each printed datum.
fn homes_and_lists(alloc: Global, bundle: &Bundle) -> Result<(Vec<ProcId>, Vec<Words>), AllocError>
    ensures homes { IfOk result (λ r. AreHomes bundle.now r.0.items) }
    ensures blank { IfOk result (λ r. AreCopied bundle.now 0 r.1.items) }
{
    let homes = homes(alloc, bundle)?;
    let lists = blank(alloc, bundle)?;
    Ok((homes, lists))
}

// What the run on threads gives. None where a processor wasn't to start or couldn't be started.
fn threaded<'a, P: Pace, R: Threads + Wait + Sync>(
    rt: &R,
    alloc: Global,
    loaded: &'a Loaded,
    processors: Vec<Processor<'a>>,
    pace: &P,
) -> Result<Option<Team<'a>>, AllocError>
    requires { AreFresh loaded.now.bundle 1 processors.items }
    ensures outputs { IfOk result (λ r. IfSome r (λ team.
        Prints loaded.now.bundle 0 team.outputs.lists)) }
    ensures ran { IfOk result (λ r. IfSome r (λ team. HaveRun loaded.now.bundle team.ran.items)) }
{
    let (homes, lists) = homes_and_lists(alloc, loaded.bundle())?;
    match run_processors(rt, alloc, loaded, processors, pace)? {
        Some(ran) => {
            let outputs = outputs_of(loaded, &ran, &homes, lists);
            Ok(Some(Team { outputs, ran }))
        }
        None => Ok(None),
    }
}

// What the step machine gives, which makes the whole run.
fn stepped<'a>(
    alloc: Global,
    loaded: &'a Loaded,
    mut state: State<'a>,
) -> Result<Team<'a>, AllocError>
    requires bundle { state.bundle ≡ loaded.now.bundle }
    requires frame { state.frame ≡ 0 }
    requires start { state_world state ≡ start }
    ensures outputs { IfOk result (λ team. Prints loaded.now.bundle 0 team.outputs.lists) }
    ensures none { IfOk result (λ team. team.ran.items ≡ []) }
{
    loaded.is_good();
    state.finish();
    let outputs = state.outputs(alloc)?;
    Ok(Team {
        outputs,
        ran: Vec::new(alloc),
    })
}

/// Runs frame 0 of a bundle by its processors, each but the first on a thread of its own. All threads
/// are started before any processor runs. Where `allow_start` refuses one, or one can't be started,
/// no processor runs, and the step machine makes the run in their place: then `ran` is empty. So
/// there is no error for a thread that can't be started, and the outputs are the same either way.
///
/// It may wait for its threads. No memory is taken while processors run.
pub fn run_team<'a, P: Pace, R: Threads + Wait + Sync>(
    rt: &R,
    alloc: Global,
    loaded: &'a Loaded,
    processors: Vec<Processor<'a>>,
    pace: &P,
) -> Result<Team<'a>, AllocError>
    requires { AreFresh loaded.now.bundle 1 processors.items }

    // Whoever made the run, the outputs are those of the tasks run one by one, in any topological
    // order.
    ensures outputs { IfOk result (λ team. Prints loaded.now.bundle 0 team.outputs.lists) }

    // Each processor has run, with all its wires, or none is there.
    ensures ran { IfOk result (λ team.
        (team.ran.items ≡ []) ⊎ HaveRun loaded.now.bundle team.ran.items) }
{
    let bundle = loaded.bundle();
    let state = State::new(alloc, bundle, 0)?;
    match threaded(rt, alloc, loaded, processors, pace)? {
        Some(team) => Ok(team),
        None => stepped(alloc, loaded, state),
    }
}
