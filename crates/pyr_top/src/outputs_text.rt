// The printed data as text.
ghost use Rattle.std.specs.Prelude.{◌≡◌, ◌<◌, ◌++◌, ◌∷◌, [], All, length, decimal, IfOk, OnOk};
ghost use Rattle.pyr_bundle.specs.Parts.{datum_count, datum_at};
ghost use Rattle.pyr_top.specs.OutputsText.{output_line, output_lines};
ghost use Rattle.pyr_top.specs.OutputsText.{printed_names, outputs_text, bundle_names, bundle_outputs};

use pyr_bundle::Bundle;
use pyr_decimal::put_number;
use pyr_graphtext::Program;
use pyr_num::{Name, Outputs, Words};
use std::alloc::{AllocError, Global};

/// A line for each printed datum of a program: its name and its words, in order.
pub fn outputs_text(
    alloc: Global,
    program: &Program,
    outputs: &Outputs,
) -> Result<Vec<u8>, AllocError>
    requires { length outputs.now.lists ≡ length program.now.graph.prints }
    ensures { IfOk result (λ text. text.items ≡ outputs_text program.now outputs.now.lists) }
{
    let names = printed_names(alloc, program)?;
    output_lines(alloc, &names, outputs.lists.as_slice())
}

/// A line for each printed datum of a bundle: its name and its words, in order.
pub fn bundle_outputs(
    alloc: Global,
    bundle: &Bundle,
    outputs: &Outputs,
) -> Result<Vec<u8>, AllocError>
    requires { length outputs.now.lists ≡ length bundle.now.prints }
    ensures { IfOk result (λ text. text.items ≡ bundle_outputs bundle.now outputs.now.lists) }
{
    let names = bundle_names(alloc, bundle)?;
    output_lines(alloc, &names, outputs.lists.as_slice())
}

// The names of the printed data of a program.
fn printed_names(alloc: Global, program: &Program) -> Result<Vec<Name>, AllocError>
    ensures { IfOk result (λ names. names.items ≡ printed_names program.now) }
{
    let graph = program.graph();
    graph.well_formed();
    let prints = graph.prints();
    let mut names = Vec::new(alloc);
    for i in 0..prints.len() {
        names.push(program.datum_name(prints[i]))?;
    }
    Ok(names)
}

// The names of the printed data of a bundle.
fn bundle_names(alloc: Global, bundle: &Bundle) -> Result<Vec<Name>, AllocError>
    ensures { IfOk result (λ names. names.items ≡ bundle_names bundle.now) }
{
    bundle.is_bundle();
    let prints = bundle.prints();
    let mut names = Vec::new(alloc);
    for i in 0..prints.len() {
        names.push(bundle.datum(prints[i]).name)?;
    }
    Ok(names)
}

// A line for each name, with the words at its place.
fn output_lines(alloc: Global, names: &[Name], lists: &[Words]) -> Result<Vec<u8>, AllocError>
    requires { length lists.now ≡ length names.now }
    ensures { IfOk result (λ text. text.items ≡ output_lines names.now lists.now) }
{
    let mut text = Vec::new(alloc);
    for (at, words) in lists.iter().enumerate() {
        put_line(&mut text, names[at], words.as_slice())?;
    }
    Ok(text)
}

fn put_line(text: &mut Vec<u8>, name: Name, words: &[u64]) -> Result<(), AllocError>
    ensures { OnOk result (text.new.items ≡ text.old.items ++ output_line name words.now) }
{
    text.extend_from_slice(name.bytes())?;
    text.extend_from_slice(b" =")?;
    for word in words {
        put_number(text, *word)?;
    }
    text.extend_from_slice(b"\n")
}
