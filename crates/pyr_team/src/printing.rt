// The outputs, out of the stores of the processors that have run.
ghost use Rattle.std.specs.Prelude.{◌≡◌, ◌<◌, length, IfOk};
ghost use Rattle.pyr_bundle.specs.Parts.{datum_count, length_of};
ghost use Rattle.pyr_machine.specs.Good.{Prints};
ghost use Rattle.pyr_team.specs.Team.{HaveRun};
ghost use Rattle.pyr_team.specs.Homes.{IsHome, AreHomes, IsValue, AreCopied};

use pyr_bundle::{Bundle, every_datum_has_a_value};
use pyr_machine::{Loaded, parcels_hold_values};
use pyr_num::{DatumId, Outputs, ProcId, Words, overwrite};
use pyr_proc::{Processor, ends_have_values};
use sqlite_items::Items;
use std::alloc::{AllocError, Global};

/// A list of zeros for each printed datum, as long as the datum.
pub fn blank(alloc: Global, bundle: &Bundle) -> Result<Vec<Words>, AllocError>
    ensures { IfOk result (λ lists. AreCopied bundle.now 0 lists.items) }
{
    bundle.is_bundle();
    let prints = bundle.prints();
    let mut lists = Vec::with_capacity(alloc, prints.len())?;
    for d in prints {
        let zeros = vec![in alloc; 0; bundle.datum(*d).length as usize]?;
        lists.push_reserved(Words::from_vec(zeros));
    }
    Ok(lists)
}

// The words of a datum in the store of its home.
fn words_at<'r>(loaded: &Loaded, ran: &'r [Processor<'_>], home: ProcId, d: DatumId) -> &'r [u64]
    requires ran { HaveRun loaded.now.bundle ran.now }
    requires known { d.0 < datum_count loaded.now.bundle }
    requires home { IsHome loaded.now.bundle d.0 home }
    ensures value { IsValue loaded.now.bundle d.0 result.now }
    ensures length { length result.now ≡ length_of loaded.now.bundle d.0 }
{
    loaded.is_good();
    parcels_hold_values();
    every_datum_has_a_value();
    ends_have_values();
    match ran[home.0 as usize].words(d) {
        Some(words) => words,
        None => unreachable!(),
    }
}

// Copies the words of each printed datum from its home, in the order of the prints.
fn copy_prints(loaded: &Loaded, ran: &[Processor<'_>], homes: &[ProcId], lists: &mut [Words])
    requires ran { HaveRun loaded.now.bundle ran.now }
    requires homes { AreHomes loaded.now.bundle homes.now }
    requires blank { AreCopied loaded.now.bundle 0 lists.old }
    ensures { Prints loaded.now.bundle 0 lists.new }
{
    loaded.is_good();
    let prints = loaded.bundle().prints();
    for i in 0..prints.len() {
        let d = prints[i];
        overwrite(&mut lists[i], words_at(loaded, ran, homes[d.0 as usize], d));
    }
}

/// The outputs, out of the stores of the processors that have run. It takes no memory.
pub fn outputs_of(
    loaded: &Loaded,
    ran: &[Processor<'_>],
    homes: &[ProcId],
    mut lists: Vec<Words>,
) -> Outputs
    requires ran { HaveRun loaded.now.bundle ran.now }
    requires homes { AreHomes loaded.now.bundle homes.now }
    requires blank { AreCopied loaded.now.bundle 0 lists.items }
    ensures { Prints loaded.now.bundle 0 result.lists }
{
    copy_prints(loaded, ran, homes, &mut lists);
    Outputs {
        lists: Items::from_vec(lists),
    }
}
