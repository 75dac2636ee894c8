// The commands, and the words that spell them.
ghost use Rattle.std.specs.Prelude.{◌≡◌, ◌≢◌, ◌∷◌, [], codes, IfSome, IfNone};
ghost use Rattle.pyr_top.specs.Commands.{texts, has_input, Spells, NoCommand};
ghost use Rattle.pyr_top.specs.Numerals.{IsNumeralIn, NoNumeralIn};

use pyr_decimal::number;
use pyr_num::Limits;

/// What the program is asked to do.
#[derive(Clone, Copy)]
pub enum Command {
    /// Runs the tasks of a graph text one by one, and prints the printed data.
    Seq,
    /// Clusters the tasks of a graph text, and tells the steps.
    Cluster,
    /// Compiles a graph text for this many processors, from 1 to `Limits::PROCESSORS`, and writes the
    /// text of its bundle.
    Compile(u32),
    /// Plans the tasks of a graph text for this many processors, from 1 to `Limits::PROCESSORS`, and
    /// tells when each runs.
    Gantt(u32),
    /// Tells whether a bundle text is that of a bundle that can be run, and in how many steps.
    Check,
    /// Runs the bundle of a bundle text, each of its processors but the first on a thread of its own,
    /// and prints the printed data.
    Run,
    /// Writes the text of a generated graph of this many tasks, from 1 to `Limits::TASKS`.
    Make(u32),
    /// Makes the generated graph of so many tasks, from 1 to `Limits::TASKS`, compiles it for so many
    /// processors, from 1 to `Limits::PROCESSORS`, prints and loads the bundle, runs it on one thread,
    /// and tells figures of that.
    VerifyMake { tasks: u32, processors: u32 },
}

impl Command {
    /// Whether the command reads an input.
    pub fn has_input(self) -> bool
        ensures { result ≡ has_input self }
    {
        match self {
            Command::Seq
            | Command::Cluster
            | Command::Compile(_)
            | Command::Gantt(_)
            | Command::Check
            | Command::Run => true,
            Command::Make(_) | Command::VerifyMake { .. } => false,
        }
    }
}

/// The command that the words spell, and `None` exactly where they spell none. Numbers are written in
/// decimal, without leading zeros. It takes no memory.
pub fn read_command(words: &[String]) -> Option<Command>
    ensures some { IfSome result (Spells (texts words.now)) }
    ensures none { IfNone result (NoCommand (texts words.now)) }
{
    let (first, rest) = words.split_first()?;
    command_of(first.as_str(), rest)
}

// The command of a first word with what comes after it.
fn command_of(first: &str, rest: &[String]) -> Option<Command>
    ensures some { IfSome result (Spells (first.now ∷ texts rest.now)) }
    ensures none { IfNone result (NoCommand (first.now ∷ texts rest.now)) }
{
    match first {
        "seq" => plain(Command::Seq, rest),
        "cluster" => plain(Command::Cluster, rest),
        "compile" => compiling(rest),
        "gantt" => planning(rest),
        "check" => plain(Command::Check, rest),
        "run" => plain(Command::Run, rest),
        "make" => making(rest),
        "verify-make" => verifying(rest),
        _ => None,
    }
}

// The command, where no word comes after its first one.
fn plain(command: Command, rest: &[String]) -> Option<Command>
    ensures some { IfSome result (λ found. (found ≡ command) × (texts rest.now ≡ [])) }
    ensures none { IfNone result (texts rest.now ≢ []) }
{
    match rest {
        [] => Some(command),
        _ => None,
    }
}

// The command that compiles, of what comes after its first word.
fn compiling(rest: &[String]) -> Option<Command>
    ensures some { IfSome result (Spells (codes "compile" ∷ texts rest.now)) }
    ensures none { IfNone result (NoCommand (codes "compile" ∷ texts rest.now)) }
{
    match rest {
        [processors] => Some(Command::Compile(processors_in(processors.as_str())?)),
        _ => None,
    }
}

fn planning(rest: &[String]) -> Option<Command>
    ensures some { IfSome result (Spells (codes "gantt" ∷ texts rest.now)) }
    ensures none { IfNone result (NoCommand (codes "gantt" ∷ texts rest.now)) }
{
    match rest {
        [processors] => Some(Command::Gantt(processors_in(processors.as_str())?)),
        _ => None,
    }
}

fn making(rest: &[String]) -> Option<Command>
    ensures some { IfSome result (Spells (codes "make" ∷ texts rest.now)) }
    ensures none { IfNone result (NoCommand (codes "make" ∷ texts rest.now)) }
{
    match rest {
        [tasks] => Some(Command::Make(tasks_in(tasks.as_str())?)),
        _ => None,
    }
}

fn verifying(rest: &[String]) -> Option<Command>
    ensures some { IfSome result (Spells (codes "verify-make" ∷ texts rest.now)) }
    ensures none { IfNone result (NoCommand (codes "verify-make" ∷ texts rest.now)) }
{
    match rest {
        [tasks, processors] => Some(Command::VerifyMake {
            tasks: tasks_in(tasks.as_str())?,
            processors: processors_in(processors.as_str())?,
        }),
        _ => None,
    }
}

// The number of tasks that the text writes.
fn tasks_in(text: &str) -> Option<u32>
    ensures some { IfSome result (IsNumeralIn text.now 1 Limits.TASKS) }
    ensures none { IfNone result (NoNumeralIn text.now 1 Limits.TASKS) }
{
    number_in(text, 1, Limits::TASKS)
}

// The number of processors that the text writes.
fn processors_in(text: &str) -> Option<u32>
    ensures some { IfSome result (IsNumeralIn text.now Limits.LEAST_PROCESSORS Limits.PROCESSORS) }
    ensures none { IfNone result (NoNumeralIn text.now Limits.LEAST_PROCESSORS Limits.PROCESSORS) }
{
    number_in(text, Limits::LEAST_PROCESSORS, Limits::PROCESSORS)
}

// The number that the text writes, where it is in this range.
#[tactic(auto, using(crate::proofs::NumeralLemmas::numerals))]
fn number_in(text: &str, least: u32, most: u32) -> Option<u32>
    ensures some { IfSome result (IsNumeralIn text.now least most) }
    ensures none { IfNone result (NoNumeralIn text.now least most) }
{
    let found = u32::try_from(number(text.as_bytes())?).ok()?;
    if (least..=most).contains(&found) {
        Some(found)
    } else {
        None
    }
}
