// Writing a bundle: one function for each list.
ghost use Rattle.std.specs.Prelude.{◌≡◌, ◌≤◌, [], ◌++◌, true, map, length, OnOk, IfOk};
ghost use Rattle.std.specs.List.{flat_map, AllByRecursion};
ghost use Rattle.pyr_num.specs.Name.{is_name};
ghost use Rattle.pyr_bundle.specs.Parts.{raw_of, raw_task_of, raw_instr_of, raw_channel_of};
ghost use Rattle.pyr_bundletext.specs.Text.{datum_text, task_text, print_text, channel_text, instr_text, processors_text, text_of};
ghost use Rattle.pyr_bundletext.specs.Spelled.{IsWord, IsSpelled, IsSpelledTask, IsSpelledChannel, IsSpelledInstr};
ghost use Rattle.pyr_bundletext.specs.Answer.{StandsFor};

use crate::lines::{put_datum_ids, put_line};
use crate::ops::put_ops;
use pyr_bundle::{Bundle, BundleTask, Capacity, Instr, RawDatum};
use pyr_decimal::put_number;
use pyr_num::{DatumId, Limits, ProcId, TaskId};
use std::alloc::{AllocError, Global};

fn put_datum(text: &mut Vec<u8>, datum: RawDatum) -> Result<(), AllocError>
    ensures text { OnOk result (text.new.items ≡ text.old.items ++ datum_text datum) }
    ensures named { is_name datum.name ≡ true }
{
    text.extend_from_slice(b"datum ")?;
    text.extend_from_slice(datum.name.bytes())?;
    put_number(text, u64::from(datum.length))?;
    text.push(b'\n')?;
    Ok(())
}

fn put_datums(text: &mut Vec<u8>, bundle: &Bundle) -> Result<(), AllocError>
    ensures text { OnOk result
        (text.new.items ≡ text.old.items ++ flat_map datum_text bundle.now.datums) }
    ensures names { OnOk result (AllByRecursion (λ d. is_name d.name ≡ true) bundle.now.datums) }
{
    for d in 0..bundle.datum_count() {
        put_datum(text, bundle.datum(DatumId(d)))?;
    }
    Ok(())
}

fn put_task(text: &mut Vec<u8>, task: &BundleTask) -> Result<(), AllocError>
    ensures text { OnOk result
        (text.new.items ≡ text.old.items ++ task_text (raw_task_of task.now)) }
    ensures words { OnOk result (IsSpelledTask (raw_task_of task.now)) }
{
    put_line(text, b"task", &[u64::from(task.code.shape().locals)])?;
    put_datum_ids(text, b"reads", task.reads.as_slice())?;
    put_datum_ids(text, b"writes", task.writes.as_slice())?;
    put_ops(text, task.code.ops())?;
    put_line(text, b"end", &[])
}

fn put_tasks(text: &mut Vec<u8>, bundle: &Bundle) -> Result<(), AllocError>
    ensures text { OnOk result (text.new.items ≡ text.old.items
        ++ flat_map task_text (map raw_task_of bundle.now.tasks)) }
    ensures words { OnOk result
        (AllByRecursion IsSpelledTask (map raw_task_of bundle.now.tasks)) }
{
    for t in 0..bundle.task_count() {
        put_task(text, bundle.task(TaskId(t)))?;
    }
    Ok(())
}

fn put_prints(text: &mut Vec<u8>, prints: &[DatumId]) -> Result<(), AllocError>
    ensures text { OnOk result (text.new.items ≡ text.old.items
        ++ flat_map print_text (map (λ d. d.0) prints.now)) }
    ensures words { OnOk result (AllByRecursion IsWord (map (λ d. d.0) prints.now)) }
{
    for datum in prints {
        put_line(text, b"print", &[u64::from(datum.0)])?;
    }
    Ok(())
}

fn put_channel(text: &mut Vec<u8>, channel: Capacity) -> Result<(), AllocError>
    ensures text { OnOk result
        (text.new.items ≡ text.old.items ++ channel_text (raw_channel_of channel)) }
    ensures words { IsSpelledChannel (raw_channel_of channel) }
{
    let from = u64::from(channel.from.0);
    let to = u64::from(channel.to.0);
    put_line(text, b"channel", &[from, to, u64::from(channel.capacity)])
}

fn put_channels(text: &mut Vec<u8>, channels: &[Capacity]) -> Result<(), AllocError>
    ensures text { OnOk result (text.new.items ≡ text.old.items
        ++ flat_map channel_text (map raw_channel_of channels.now)) }
    ensures words { OnOk result
        (AllByRecursion IsSpelledChannel (map raw_channel_of channels.now)) }
{
    for channel in channels {
        put_channel(text, *channel)?;
    }
    Ok(())
}

fn put_instr(text: &mut Vec<u8>, instr: Instr) -> Result<(), AllocError>
    ensures text { OnOk result
        (text.new.items ≡ text.old.items ++ instr_text (raw_instr_of instr)) }
    ensures words { IsSpelledInstr (raw_instr_of instr) }
{
    match instr {
        Instr::Recv { from, datum } => {
            put_line(text, b"recv", &[u64::from(from.0), u64::from(datum.0)])
        }
        Instr::Exec { task } => put_line(text, b"exec", &[u64::from(task.0)]),
        Instr::Send { to, datum } => {
            put_line(text, b"send", &[u64::from(to.0), u64::from(datum.0)])
        }
    }
}

fn put_instrs(text: &mut Vec<u8>, code: &[Instr]) -> Result<(), AllocError>
    ensures text { OnOk result (text.new.items ≡ text.old.items
        ++ flat_map instr_text (map raw_instr_of code.now)) }
    ensures words { OnOk result (AllByRecursion IsSpelledInstr (map raw_instr_of code.now)) }
{
    for instr in code {
        put_instr(text, *instr)?;
    }
    Ok(())
}

fn put_processors(text: &mut Vec<u8>, bundle: &Bundle) -> Result<(), AllocError>
    ensures text { OnOk result (text.new.items ≡ text.old.items
        ++ processors_text 0 (map (map raw_instr_of) bundle.now.code)) }
    ensures words { OnOk result (AllByRecursion (AllByRecursion IsSpelledInstr)
        (map (map raw_instr_of) bundle.now.code)) }
{
    for p in 0..bundle.processors() {
        put_line(text, b"processor", &[u64::from(p)])?;
        put_instrs(text, bundle.code(ProcId(p)))?;
    }
    Ok(())
}

// Writes all lines of a bundle.
fn put_bundle(text: &mut Vec<u8>, bundle: &Bundle) -> Result<(), AllocError>
    requires empty { text.old.items ≡ [] }
    ensures text { OnOk result (text.new.items ≡ text_of (raw_of bundle.now)) }
    ensures words { OnOk result (IsSpelled (raw_of bundle.now)) }
{
    put_line(text, b"pyrros", &[1])?;
    put_line(text, b"processors", &[u64::from(bundle.processors())])?;
    put_datums(text, bundle)?;
    put_tasks(text, bundle)?;
    put_prints(text, bundle.prints())?;
    put_channels(text, bundle.channels())?;
    put_processors(text, bundle)?;
    put_line(text, b"stop", &[])
}

/// The text of a bundle, in its one spelling. Every bundle has a text of at most `Limits::INPUT`
/// bytes, so `read_bundle` can read it again.
pub fn print_bundle(alloc: Global, bundle: &Bundle) -> Result<Vec<u8>, AllocError>
    // this very text
    ensures text { IfOk result (λ text. text.items ≡ text_of (raw_of bundle.now)) }
    // `read_bundle` answers these parts and nothing else, by `one_answer_is_told`
    ensures read_again { IfOk result (λ text. StandsFor text.items (raw_of bundle.now)) }
    // it is within the limit that `read_bundle` requires, for every bundle
    ensures fits { IfOk result (λ text. length text.items ≤ Limits.INPUT) }
{
    bundle.is_bundle();
    let mut text = Vec::new(alloc);
    put_bundle(&mut text, bundle)?;
    Ok(text)
}
