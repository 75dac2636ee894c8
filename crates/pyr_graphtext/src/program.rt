// A program.
ghost use Rattle.std.specs.Prelude.{◌≡◌, ◌<◌};
ghost use Rattle.pyr_graph.specs.System.{task_count, datum_count};
ghost use Rattle.pyr_graphtext.specs.Program.{IsProgram, program_of, datum_name, task_name, body_at};

use pyr_body::Body;
use pyr_graph::Graph;
use pyr_num::{DatumId, Name, NameList, TaskId};
use sqlite_items::Items;
use std::marker::Model;

/// A task graph with a name for each datum and each task, and a body for each task. Contracts see
/// these parts.
///
/// The names of the data differ, and so do those of the tasks. A body has the slots of its task:
/// the data that it reads, and then those that it writes. All bodies together are within
/// `Limits::ALL_NODES` and `Limits::ALL_WORK`.
#[derive(Drop)]
pub struct Program {
    graph: Graph,
    datum_names: NameList,
    task_names: NameList,
    bodies: Items<Body>,
}

impl Model for Program {
    ghost use Rattle.std.specs.Coded.{codes};
    ghost use Rattle.pyr_body.specs.TreeCode.{statements_code};
    ghost use Rattle.pyr_graphtext.specs.Program.{ProgramParts, IsProgram, program_of};

    ghost Value = { ProgramParts };

    ghost coded = { Prim.hlevel (codes, statements_code) };

    ghost view = { λ p. program_of p.graph p.datum_names p.task_names p.bodies };

    ghost invariant = { λ p. IsProgram (program_of p.graph p.datum_names p.task_names p.bodies) };
}

impl Program {
    /// The program of this graph, with a name for each datum and each task and a body for each
    /// task, all by number. It takes no memory.
    pub fn new(graph: Graph, datums: Vec<Name>, tasks: Vec<Name>, bodies: Vec<Body>) -> Program
        requires { IsProgram (program_of graph datums.items tasks.items bodies.items) }
        ensures { result ≡ program_of graph datums.items tasks.items bodies.items }
    {
        Program {
            graph,
            datum_names: Items::from_vec(datums),
            task_names: Items::from_vec(tasks),
            bodies: Items::from_vec(bodies),
        }
    }

    /// The task graph.
    pub fn graph(&self) -> &Graph
        ensures graph { result.now ≡ self.now.graph }
        ensures program { IsProgram self.now }
    {
        &self.graph
    }

    /// The name of a task.
    pub fn task_name(&self, task: TaskId) -> Name
        requires { task.0 < task_count self.now.graph }
        ensures { result ≡ task_name self.now task.0 }
    {
        self.task_names.as_slice()[task.0 as usize]
    }

    /// The name of a datum.
    pub fn datum_name(&self, datum: DatumId) -> Name
        requires { datum.0 < datum_count self.now.graph }
        ensures { result ≡ datum_name self.now datum.0 }
    {
        self.datum_names.as_slice()[datum.0 as usize]
    }

    /// The body of a task.
    pub fn body(&self, task: TaskId) -> &Body
        requires { task.0 < task_count self.now.graph }
        ensures { result.now ≡ body_at self.now task.0 }
    {
        &self.bodies.as_slice()[task.0 as usize]
    }
}
