// What a task makes of the words in the store of its processor.
ghost use Rattle.std.specs.Prelude.{◌≡◌, ◌<◌, ◌≤◌, ◌+◌, [], true, length, map, sum_by, slice_set};
ghost use Rattle.std.specs.List.{list_all};
ghost use Rattle.pyr_num.specs.declared.limits.TheConstants.Limits.{WRITES};
ghost use Rattle.pyr_num.specs.Cells.{word_count};
ghost use Rattle.pyr_bundle.specs.Parts.{datum_count, task_count, task_at, length_of};
ghost use Rattle.pyr_bundle.specs.Values.{zeros};
ghost use Rattle.pyr_machine.specs.Machine.{holds, all_stored};
ghost use Rattle.pyr_machine.specs.Parcels.{parcel_tag, words_in, paired, parcels};
ghost use Rattle.pyr_machine.specs.Station.{AllBelow};
ghost use Rattle.pyr_machine.specs.State.{numbers, task_slots, task_words};
ghost use Rattle.pyr_proc.specs.Entries.{store_of, entry};
ghost use Rattle.pyr_proc.specs.Computing.{size_at, AreSized, CanWrite, FillsIn};

use crate::entry::Entry;
use pyr_bundle::Bundle;
use pyr_code::exec;
use pyr_num::{Cells, DatumId, TaskId, overwrite};

// Adds the words of these data as inputs.
fn load(bundle: &Bundle, reads: &[DatumId], entries: &[Entry], cells: &mut Cells)
    requires sized { AreSized bundle.now entries.now }
    requires known { AllBelow (datum_count bundle.now) reads.now }
    requires held { list_all (λ d. holds parcel_tag d.0 (store_of entries.now)) reads.now ≡ true }
    requires empty { cells.old.inputs ≡ [] }
    requires first { cells.old.outputs ≡ [] }
    requires slots { length reads.now ≤ cells.old.slot_room }
    requires words { sum_by (length_of bundle.now) (numbers reads.now) ≤ cells.old.word_room }
    ensures { cells.new ≡ record cells.old {
      inputs = map (λ d. words_in d (store_of entries.now)) (numbers reads.now);
    } }
{
    bundle.well_formed();
    for d in reads {
        cells.add_input(entries[d.0 as usize].words.as_slice());
    }
}

// Adds zeros for each of these data as outputs.
fn open(bundle: &Bundle, writes: &[DatumId], cells: &mut Cells)
    requires known { AllBelow (datum_count bundle.now) writes.now }
    requires empty { cells.old.outputs ≡ [] }
    requires slots { length cells.old.inputs + length writes.now ≤ cells.old.slot_room }
    requires words { word_count cells.old.inputs
        + sum_by (length_of bundle.now) (numbers writes.now) ≤ cells.old.word_room }
    ensures { cells.new ≡ record cells.old { outputs = zeros bundle.now (numbers writes.now) } }
{
    bundle.well_formed();
    for d in writes {
        cells.add_output(bundle.datum(*d).length);
    }
}

// Puts an output into the store, in place of the words of its datum.
fn put(entries: &mut [Entry], d: DatumId, output: &[u64])
    requires known { d.0 < length entries.old }
    requires fits { length output.now ≡ size_at entries.old d.0 }
    ensures { entries.new ≡ slice_set entries.old d.0 (entry output.now) }
{
    let entry = &mut entries[d.0 as usize];
    overwrite(&mut entry.words, output);
    entry.held = true;
}

// Puts the outputs into the store.
fn unload(writes: &[DatumId], cells: &Cells, entries: &mut [Entry])
    requires known { AllBelow (length entries.old) writes.now }
    requires few { length writes.now ≤ WRITES }
    requires fit { map length cells.now.outputs ≡ map (size_at entries.old) (numbers writes.now) }
    ensures store { store_of entries.new
        ≡ all_stored parcel_tag (paired writes.now cells.now.outputs) (store_of entries.old) }
    ensures fills { FillsIn writes.now entries.old entries.new }
{
    for i in 0..writes.len() {
        put(entries, writes[i], cells.output(i as u32));
    }
}

/// Executes a task on what it reads in the store, and puts what it makes into the store. It takes
/// no memory.
pub fn compute(bundle: &Bundle, frame: u64, t: TaskId, entries: &mut [Entry], cells: &mut Cells)
    requires there { t.0 < task_count bundle.now }
    requires sized { AreSized bundle.now entries.old }
    requires held { list_all (λ d. holds parcel_tag d.0 (store_of entries.old))
        (task_at bundle.now t.0).reads ≡ true }
    requires writes { CanWrite bundle.now t.0 entries.old }
    requires slots { task_slots bundle.now t.0 ≤ cells.old.slot_room }
    requires words { task_words bundle.now t.0 ≤ cells.old.word_room }
    ensures store { store_of entries.new
        ≡ all_stored parcel_tag ((parcels bundle.now frame).made t.0 (store_of entries.old))
        (store_of entries.old) }
    ensures fills { FillsIn (task_at bundle.now t.0).writes entries.old entries.new }
    ensures slots { cells.new.slot_room ≡ cells.old.slot_room }
    ensures words { cells.new.word_room ≡ cells.old.word_room }
{
    bundle.well_formed();
    let task = bundle.task(t);
    cells.clear();
    load(bundle, task.reads.as_slice(), entries, cells);
    open(bundle, task.writes.as_slice(), cells);
    exec(&task.code, frame, cells);
    unload(task.writes.as_slice(), cells, entries);
}
