// One pass over the passages of a run, for one receiver.
ghost use Rattle.std.specs.Prelude.{◌≡◌, ℕ, ◌+◌, ◌^◌, ◌<◌, ◌≤◌, length, replicate, slice_index, IfOk, OnOk};
ghost use Rattle.pyr_calm.specs.declared.passage.Passage.TheVariants.{Send as Sends, Take as Takes};
ghost use Rattle.pyr_calm.specs.Course.{AreAmong};
ghost use Rattle.pyr_calm.specs.Viewers.{viewed, viewed_all, fresh_view};
ghost use Rattle.pyr_calm.specs.Seats.{seat_at, view_of, fresh_seat, IsSeated};

use crate::passage::Passage;
use crate::viewer::Viewer;
use std::alloc::{AllocError, Global};

// The processors at the start of a pass.
fn fresh_viewers(alloc: Global, processors: u32) -> Result<Vec<Viewer>, AllocError>
    ensures { IfOk result (λ v. v.items ≡ replicate processors (fresh_seat processors)) }
{
    let mut viewers = Vec::with_capacity(alloc, processors as usize)?;
    for _ in 0..processors {
        viewers.push(Viewer::new(alloc, processors)?)?;
    }
    Ok(viewers)
}

// A parcel goes from one processor to another.
fn watch_send(
    viewers: &mut [Viewer],
    takes: &[u32],
    q: u32,
    from: u32,
    to: u32,
) -> Result<(), AllocError>
    requires from { from < length viewers.old }
    requires to { to < length viewers.old }
    requires seated { IsSeated (length viewers.old) viewers.old takes.now }
    requires few { (seat_at viewers.old from).sent < 2 ^ 63 }
    ensures view { OnOk result
        (view_of viewers.new takes.now ≡ viewed q (Sends from to) (view_of viewers.old takes.now)) }
    ensures seated { OnOk result (IsSeated (length viewers.old) viewers.new takes.now) }
    ensures few { OnOk result
        ((p : ℕ) → (seat_at viewers.new p).sent ≤ (seat_at viewers.old p).sent + 1) }
{
    let sender = &mut viewers[from as usize];
    sender.send(to as usize)?;
    if to == q {
        sender.count_send(from, takes);
    }
    Ok(())
}

// A parcel is taken.
fn watch_take(
    viewers: &mut [Viewer],
    takes: &mut Vec<u32>,
    q: u32,
    from: u32,
    to: u32,
) -> Result<(), AllocError>
    requires from { from < length viewers.old }
    requires to { to < length viewers.old }
    requires seated { IsSeated (length viewers.old) viewers.old takes.old.items }
    ensures view { OnOk result (view_of viewers.new takes.new.items
        ≡ viewed q (Takes from to) (view_of viewers.old takes.old.items)) }
    ensures seated { OnOk result (IsSeated (length viewers.old) viewers.new takes.new.items) }
    ensures few { OnOk result
        ((p : ℕ) → (seat_at viewers.new p).sent ≤ (seat_at viewers.old p).sent + 1) }
{
    if let Some(stamp) = viewers[from as usize].hand_over(to as usize) {
        if to == q {
            takes.push(from)?;
            viewers[to as usize].count_take(takes.len());
        } else {
            viewers[to as usize].hear(stamp);
        }
    }
    Ok(())
}

// The processors after all of these passages.
fn viewers_after(
    alloc: Global,
    processors: u32,
    q: u32,
    passages: &[Passage],
) -> Result<Vec<Viewer>, AllocError>
    requires { AreAmong processors passages.now }
    ensures count { IfOk result (λ v. length v.items ≡ processors) }
    ensures most { IfOk result (λ v. (p : ℕ) →
        (seat_at v.items p).most ≡ (viewed_all q passages.now fresh_view).most p) }
{
    let mut viewers = fresh_viewers(alloc, processors)?;
    let mut takes = Vec::new(alloc);
    for passage in passages {
        match *passage {
            Passage::Send { from, to } => watch_send(&mut viewers, &takes, q, from, to)?,
            Passage::Take { from, to } => watch_take(&mut viewers, &mut takes, q, from, to)?,
        }
    }
    Ok(viewers)
}

// For each of these processors the greatest length that one of its sends may leave.
fn most_of(alloc: Global, viewers: &[Viewer]) -> Result<Vec<usize>, AllocError>
    ensures count { IfOk result (λ v. length v.items ≡ length viewers.now) }
    ensures most { IfOk result (λ v. (p : ℕ) → p < length viewers.now →
        slice_index v.items p ≡ (seat_at viewers.now p).most) }
{
    let mut most = Vec::with_capacity(alloc, viewers.len())?;
    for viewer in viewers {
        most.push(viewer.most())?;
    }
    Ok(most)
}

/// For each processor the greatest length that one of its sends to q may leave, over all reached
/// states of a net in which no send waits, as the passages of one run tell it.
pub(crate) fn most_waiting(
    alloc: Global,
    processors: u32,
    q: u32,
    passages: &[Passage],
) -> Result<Vec<usize>, AllocError>
    requires { AreAmong processors passages.now }
    ensures count { IfOk result (λ v. length v.items ≡ processors) }
    ensures most { IfOk result (λ v. (p : ℕ) → p < processors →
        slice_index v.items p ≡ (viewed_all q passages.now fresh_view).most p) }
{
    let viewers = viewers_after(alloc, processors, q, passages)?;
    most_of(alloc, &viewers)
}
