// Data that stand twice in a list.

ghost use Rattle.std.specs.Prelude.{◌≡◌, ◌++◌, ◌∷◌, [], IfOk};
ghost use Rattle.std.specs.List.{flat_map};
ghost use Rattle.std.specs.Option.{option_map};
ghost use Rattle.pyr_graph.specs.System.{datum_numbers};
ghost use Rattle.pyr_graph.specs.Faults.{first_repeated, first_repeated_of, lists_of};

use crate::TaskParts;
use pyr_num::DatumId;
use std::alloc::{AllocError, Global};
use std::collections::BTreeSet;

/// Of the data that stand twice in the list, the one that stands first.
fn repeated(alloc: Global, list: &[DatumId]) -> Result<Option<DatumId>, AllocError>
    ensures { IfOk result
        (λ found. option_map (λ d. d.0) found ≡ first_repeated (datum_numbers list.now)) }
{
    let mut later = BTreeSet::new(alloc);
    let mut found = None;
    for at in (0..list.len()).rev() {
        if !later.insert(list[at].0)? {
            found = Some(list[at]);
        }
    }
    Ok(found)
}

/// The first datum that stands twice in one list: by task, reads before writes, the prints last.
pub(crate) fn duplicate(
    alloc: Global,
    tasks: &[TaskParts],
    prints: &[DatumId],
) -> Result<Option<DatumId>, AllocError>
    ensures { IfOk result (λ found. option_map (λ d. d.0) found
        ≡ first_repeated_of (flat_map lists_of tasks.now ++ datum_numbers prints.now ∷ [])) }
{
    for task in tasks {
        if let Some(datum) = repeated(alloc, task.reads.as_slice())? {
            return Ok(Some(datum));
        }
        if let Some(datum) = repeated(alloc, task.writes.as_slice())? {
            return Ok(Some(datum));
        }
    }
    repeated(alloc, prints)
}
