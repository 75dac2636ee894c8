// The printer of programs.
ghost use Rattle.std.specs.Prelude.{◌≡◌, ℕ, ◌<◌, [], ◌∷◌, ◌++◌, All, map, OnOk, IfOk};
ghost use Rattle.pyr_lex.specs.declared.token.Token.TheVariants.{Name as name_token, Word as word_token};
ghost use Rattle.pyr_lex.specs.Token.{AreTokens};
ghost use Rattle.pyr_body.specs.RoundTrip.{IsReadAgain};
ghost use Rattle.pyr_graph.specs.System.{task_count, datum_count};
ghost use Rattle.pyr_graphtext.specs.declared.form.Form.TheVariants as forms;
ghost use Rattle.pyr_graphtext.specs.Line.{tokens_of_line};
ghost use Rattle.pyr_graphtext.specs.Program.{body_at};
ghost use Rattle.pyr_graphtext.specs.Canonical.{names_of, read_names, written_names, data_line, print_line, names_line, task_head, task_end, body_lines, task_lines, data_lines, all_task_lines, print_lines, program_text, text_of, AreLineTokens};
ghost use Rattle.pyr_graphtext.specs.Answer.{StandsFor};
ghost use Rattle.pyr_graphtext.specs.Slots.{AreSlotNames, FitBody};

use crate::Program;
use pyr_body::{SlotNames, print_body};
use pyr_lex::{Token, Word, write_line};
use pyr_num::{DatumId, Name, NameList, TaskId};
use sqlite_items::Items;
use std::alloc::{AllocError, Global};

/// The canonical text of a program: the data, the tasks and the prints, each in their order. Each
/// line has one space between two tokens, but none behind `(` and `[` and none before `)`, `[` and
/// `]`, and ends with a line feed. This takes time linear in the text.
pub fn print_program(alloc: Global, program: &Program) -> Result<Vec<u8>, AllocError>
    ensures text { IfOk result (λ text. text.items ≡ program_text program.now) }
    // reading the text gives the program again
    ensures read_again { OnOk result (StandsFor (program_text program.now) program.now) }
{
    program.graph().well_formed();
    let mut out = Vec::new(alloc);
    write_data(&mut out, program)?;
    write_tasks(alloc, &mut out, program)?;
    write_prints(&mut out, program)?;
    Ok(out)
}

// The lines of the data.
fn write_data(out: &mut Vec<u8>, program: &Program) -> Result<(), AllocError>
    ensures text { OnOk result (out.new.items
        ≡ out.old.items ++ text_of (data_lines program.now)) }
    ensures tokens { OnOk result (AreLineTokens (data_lines program.now)) }
{
    for number in 0..program.graph().datum_count() {
        write_datum(out, program, DatumId(number))?;
    }
    Ok(())
}

fn write_datum(out: &mut Vec<u8>, program: &Program, datum: DatumId) -> Result<(), AllocError>
    requires { datum.0 < datum_count program.now.graph }
    ensures text { OnOk result (out.new.items
        ≡ out.old.items ++ text_of (data_line program.now datum.0 ∷ [])) }
    ensures tokens { OnOk result (AreTokens (tokens_of_line (data_line program.now datum.0))) }
{
    let graph = program.graph();
    let tokens = [
        Token::Word(Word::Data),
        Token::Name(program.datum_name(datum)),
        Token::Number(u64::from(graph.length(datum))),
        Token::Number(u64::from(graph.comm(datum))),
    ];
    write_line(out, &tokens)
}

// The lines of the tasks, with their bodies.
fn write_tasks(alloc: Global, out: &mut Vec<u8>, program: &Program) -> Result<(), AllocError>
    ensures text { OnOk result (out.new.items
        ≡ out.old.items ++ text_of (all_task_lines program.now)) }
    ensures tokens { OnOk result (AreLineTokens (all_task_lines program.now)) }
    ensures bodies { OnOk result ((t : ℕ) → t < task_count program.now.graph
        → IsReadAgain (body_at program.now t) (read_names program.now t)
        (written_names program.now t)) }
{
    for number in 0..program.graph().task_count() {
        write_task(alloc, out, program, TaskId(number))?;
    }
    Ok(())
}

fn write_task(
    alloc: Global,
    out: &mut Vec<u8>,
    program: &Program,
    task: TaskId,
) -> Result<(), AllocError>
    requires { task.0 < task_count program.now.graph }
    ensures text { OnOk result (out.new.items
        ≡ out.old.items ++ text_of (task_lines program.now task.0)) }
    ensures tokens { OnOk result (AreLineTokens (task_lines program.now task.0)) }
    ensures body { OnOk result (IsReadAgain (body_at program.now task.0)
        (read_names program.now task.0) (written_names program.now task.0)) }
{
    let names = slot_names(alloc, program, task)?;
    let written = write_named_task(alloc, out, program, task, &names);
    drop(names);
    written
}

// The lines of a task that reads and writes data of these names.
fn write_named_task(
    alloc: Global,
    out: &mut Vec<u8>,
    program: &Program,
    task: TaskId,
    names: &SlotNames,
) -> Result<(), AllocError>
    requires task { task.0 < task_count program.now.graph }
    requires names { AreSlotNames program.now task.0 names.now }
    requires fit { FitBody (body_at program.now task.0) names.now }
    ensures text { OnOk result (out.new.items
        ≡ out.old.items ++ text_of (task_lines program.now task.0)) }
    ensures tokens { OnOk result (AreLineTokens (task_lines program.now task.0)) }
    ensures body { OnOk result (IsReadAgain (body_at program.now task.0)
        (read_names program.now task.0) (written_names program.now task.0)) }
{
    write_head(out, program, task)?;
    write_reads(alloc, out, names.reads.as_slice())?;
    write_outputs(alloc, out, names.writes.as_slice())?;
    write_body(alloc, out, program, task, names)?;
    write_end(out)
}

// The names of the data that a task reads and writes.
fn slot_names(alloc: Global, program: &Program, task: TaskId) -> Result<SlotNames, AllocError>
    requires { task.0 < task_count program.now.graph }
    ensures names { IfOk result (λ names. AreSlotNames program.now task.0 names) }
    ensures fit { IfOk result (λ names. FitBody (body_at program.now task.0) names) }
{
    let graph = program.graph();
    graph.well_formed();
    Ok(SlotNames {
        reads: names_of(alloc, program, graph.reads(task))?,
        writes: names_of(alloc, program, graph.writes(task))?,
    })
}

fn names_of(alloc: Global, program: &Program, datums: &[DatumId]) -> Result<NameList, AllocError>
    requires { All (λ d. d.0 < datum_count program.now.graph) datums.now }
    ensures { IfOk result (λ names. names ≡ names_of program.now datums.now) }
{
    let mut names = Items::new(alloc);
    for datum in datums {
        names.push(program.datum_name(*datum))?;
    }
    Ok(names)
}

// The first line of a task.
fn write_head(out: &mut Vec<u8>, program: &Program, task: TaskId) -> Result<(), AllocError>
    requires { task.0 < task_count program.now.graph }
    ensures text { OnOk result (out.new.items
        ≡ out.old.items ++ text_of (task_head program.now task.0 ∷ [])) }
    ensures tokens { OnOk result (AreTokens (tokens_of_line (task_head program.now task.0))) }
{
    let tokens = [
        Token::Word(Word::Task),
        Token::Name(program.task_name(task)),
        Token::Number(u64::from(program.graph().cost(task))),
    ];
    write_line(out, &tokens)
}

// The line of the data that a task reads, if it reads some.
fn write_reads(alloc: Global, out: &mut Vec<u8>, names: &[Name]) -> Result<(), AllocError>
    ensures text { OnOk result (out.new.items
        ≡ out.old.items ++ text_of (names_line forms.Reads names.now)) }
    ensures tokens { OnOk result (AreLineTokens (names_line forms.Reads names.now)) }
{
    if names.is_empty() {
        return Ok(());
    }
    let tokens = tokens_of_names(alloc, Word::Reads, names)?;
    write_line(out, tokens.as_slice())
}

// The line of the data that it writes, if it writes some.
fn write_outputs(alloc: Global, out: &mut Vec<u8>, names: &[Name]) -> Result<(), AllocError>
    ensures text { OnOk result (out.new.items
        ≡ out.old.items ++ text_of (names_line forms.Writes names.now)) }
    ensures tokens { OnOk result (AreLineTokens (names_line forms.Writes names.now)) }
{
    if names.is_empty() {
        return Ok(());
    }
    let tokens = tokens_of_names(alloc, Word::Writes, names)?;
    write_line(out, tokens.as_slice())
}

// The lines of a task's body, over data with these names.
fn write_body(
    alloc: Global,
    out: &mut Vec<u8>,
    program: &Program,
    task: TaskId,
    names: &SlotNames,
) -> Result<(), AllocError>
    requires task { task.0 < task_count program.now.graph }
    requires fit { FitBody (body_at program.now task.0) names.now }
    ensures text { OnOk result (out.new.items ≡ out.old.items
        ++ text_of (body_lines (body_at program.now task.0) names.now.reads names.now.writes)) }
    ensures tokens { OnOk result (AreLineTokens
        (body_lines (body_at program.now task.0) names.now.reads names.now.writes)) }
    ensures body { OnOk result (IsReadAgain (body_at program.now task.0)
        names.now.reads names.now.writes) }
{
    let text = print_body(alloc, program.body(task), names)?;
    out.extend_from_slice(text.as_slice())
}

// The last line of a task.
fn write_end(out: &mut Vec<u8>) -> Result<(), AllocError>
    ensures { OnOk result (out.new.items ≡ out.old.items ++ text_of (task_end ∷ [])) }
{
    write_line(out, &[Token::Word(Word::End)])
}

// A word and names.
fn tokens_of_names(alloc: Global, word: Word, names: &[Name]) -> Result<Vec<Token>, AllocError>
    ensures { IfOk result (λ tokens. tokens.items
        ≡ word_token word ∷ map name_token names.now) }
{
    let mut tokens = Vec::new(alloc);
    tokens.push(Token::Word(word))?;
    for name in names {
        tokens.push(Token::Name(*name))?;
    }
    Ok(tokens)
}

// The lines of the prints.
fn write_prints(out: &mut Vec<u8>, program: &Program) -> Result<(), AllocError>
    ensures text { OnOk result (out.new.items
        ≡ out.old.items ++ text_of (print_lines program.now)) }
    ensures tokens { OnOk result (AreLineTokens (print_lines program.now)) }
{
    let graph = program.graph();
    graph.well_formed();
    for datum in graph.prints() {
        write_print(out, program.datum_name(*datum))?;
    }
    Ok(())
}

fn write_print(out: &mut Vec<u8>, name: Name) -> Result<(), AllocError>
    ensures text { OnOk result (out.new.items
        ≡ out.old.items ++ text_of (print_line name ∷ [])) }
    ensures tokens { OnOk result (AreTokens (tokens_of_line (print_line name))) }
{
    write_line(out, &[Token::Word(Word::Print), Token::Name(name)])
}
