// A clustering as text.
ghost use Rattle.std.specs.Prelude.{◌≡◌, ◌<◌, ◌++◌, ◌∷◌, All, codes, decimal, length, IfOk, OnOk};
ghost use Rattle.std.specs.List.{flat_map};
ghost use Rattle.pyr_graph.specs.System.{task_count};
ghost use Rattle.pyr_top.specs.ClusterReport.{step_line, cluster_report};

use crate::figures::put_figure;
use pyr_decimal::put_number;
use pyr_graph::{Clustering, Step};
use pyr_graphtext::Program;
use std::alloc::{AllocError, Global};

/// The first parallel time, a line for each step, and how many clusters there are.
pub fn cluster_report(
    alloc: Global,
    program: &Program,
    clustering: &Clustering,
) -> Result<Vec<u8>, AllocError>
    requires { All (λ step. step.task.0 < task_count program.now.graph) clustering.now.steps }
    ensures { IfOk result (λ text. text.items ≡ cluster_report program.now clustering.now) }
{
    let mut text = Vec::new(alloc);
    put_report(&mut text, program, clustering)?;
    Ok(text)
}

fn put_report(
    text: &mut Vec<u8>,
    program: &Program,
    clustering: &Clustering,
) -> Result<(), AllocError>
    requires { All (λ step. step.task.0 < task_count program.now.graph) clustering.now.steps }
    ensures { OnOk result (text.new.items
        ≡ text.old.items ++ cluster_report program.now clustering.now) }
{
    put_figure(text, b"pt", clustering.first)?;
    text.extend_from_slice(b"\n")?;
    put_steps(text, program, clustering.steps.as_slice())?;
    put_figure(text, b"clusters", clustering.clusters.len() as u64)?;
    text.extend_from_slice(b"\n")
}

// A line for each step.
fn put_steps(text: &mut Vec<u8>, program: &Program, steps: &[Step]) -> Result<(), AllocError>
    requires { All (λ step. step.task.0 < task_count program.now.graph) steps.now }
    ensures { OnOk result (text.new.items
        ≡ text.old.items ++ flat_map (step_line program.now) steps.now) }
{
    for step in steps {
        put_step(text, program, step)?;
    }
    Ok(())
}

fn put_step(text: &mut Vec<u8>, program: &Program, step: &Step) -> Result<(), AllocError>
    requires { step.now.task.0 < task_count program.now.graph }
    ensures { OnOk result (text.new.items ≡ text.old.items ++ step_line program.now step.now) }
{
    let name = program.task_name(step.task);
    put_figure(text, name.bytes(), u64::from(step.cluster))?;
    put_number(text, step.start)?;
    put_number(text, step.pt)?;
    text.extend_from_slice(b"\n")
}
