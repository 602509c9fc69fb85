//! Pages that wait before a disk.
ghost use Rattle.std.specs.Prelude.{◌≡◌, ◌<◌, ◌≤◌, ◌^◌, length, map, List, [], Some, None, false, true, IfOk, IfErr, IfSome, IsSome, vec_capacity};
ghost use Rattle.std.specs.Option.{ForSome};
ghost use Rattle.labelled_disk.specs.Label.{names};
ghost use Rattle.write_queue.specs.Entries.{AreWaiting};
ghost use Rattle.write_queue.specs.Filtering.{AdmitsWaiting, IsFreeHead};
ghost use Rattle.write_queue.specs.View.{Covers};

use crate::Entry;
use crate::filter::Filter;
use labelled_disk::{Disk, Label, NoMemory, Wanted};
use std::alloc::{AllocError, Allocator};

/// A disk that is held by value, and the pages that wait before it. It is a disk itself.
///
/// A page that is written by `write_data` waits, and costs a reading of its label at most. It is
/// written beneath in an ascending sweep, when there is no room for another one, or before a label is
/// written or the queue is settled. What wasn't settled is lost with the queue.
#[derive(Drop)]
pub struct QueueOver<D: Disk, A: Allocator> {
    pub(crate) beneath: D,
    pub(crate) entries: Vec<Entry, A>,
    // Of the entries, so that a search looks at numbers that stand together.
    pub(crate) sectors: Vec<u32, A>,
    // Of these sectors.
    pub(crate) filter: Filter,
    pub(crate) room: u32,
    // The sector that was written out last, and whether no page waits for it.
    pub(crate) head: u32,
    pub(crate) head_free: bool,
    // Where the page after the last one may stand.
    pub(crate) guess: usize,
    pub(crate) transfers: u64,
    // The transfers beneath when the queue was made.
    pub(crate) begun: u64,
    // The calls of `sync` that failed.
    pub(crate) no_sync: u64,
    // The labels that were met and had changed, and the last of them.
    pub(crate) own: u64,
    pub(crate) changed: Option<(u32, Wanted, Label)>,
    ghost waiting: { AreWaiting (D.state beneath) entries.items },
    ghost listed: { sectors.items ≡ map (λ e. e.sector) entries.items },
    ghost filtered: { AdmitsWaiting filter entries.items },
    ghost freed: { IsFreeHead head_free head entries.items },
    ghost fits: { length entries.items ≤ room },
    ghost room_kept: { (room ≤ vec_capacity entries) × (room ≤ vec_capacity sectors) },
    ghost rooms: { (1 ≤ room) × (room ≤ 256) },
    ghost unchanged: { (d : List _) → (D.state beneath).contents ≡ Some d → changed ≡ None },
    ghost counted: { changed ≡ None → own ≡ 0 },
    ghost differs: { ForSome changed (λ c. names c.2 c.1 ≡ false) },
    ghost few_transfers: { transfers < 2 ^ 64 },
    ghost paid: { Covers 0 begun transfers no_sync (D.state beneath).transfers
        (length entries.items) },
}

/// A queue over a disk that is lent.
pub type Queue<'d, D, A> = QueueOver<&'d mut D, A>;

// Lists with room for so many pages and their sectors.
fn lists<A: Allocator + Clone>(
    alloc: A,
    room: u32,
) -> Result<(Vec<Entry, A>, Vec<u32, A>), AllocError>
    ensures empty { IfOk result (λ l. (l.0.items ≡ []) × (l.1.items ≡ [])) }
    ensures room { IfOk result (λ l. (room ≤ vec_capacity l.0) × (room ≤ vec_capacity l.1)) }
{
    let entries = Vec::with_capacity(alloc.clone()?, room as usize)?;
    let sectors = Vec::with_capacity(alloc, room as usize)?;
    Ok((entries, sectors))
}

impl<D: Disk, A: Allocator + Clone> QueueOver<D, A> {
    ghost use Rattle.write_queue.specs.Queue.{disk_of, view_of, tally_of};
    ghost use Rattle.write_queue.specs.View.{new_view, new_tally};

    /// A queue with room for 1 to 256 pages, 556 bytes each. All memory is taken here, and none
    /// later. The disk is handed back where there is none.
    pub fn over(alloc: A, disk: D, room: u32) -> Result<QueueOver<D, A>, (NoMemory, D)>
        requires least { 1 ≤ room }
        requires most { room ≤ 256 }
        ensures over { IfOk result (λ q. disk_of q ≡ disk) }
        ensures view { IfOk result (λ q. view_of q ≡ new_view (D.state disk) room) }
        ensures tally { IfOk result (λ q. tally_of q ≡ new_tally (D.state disk)) }
        ensures back { IfErr result (λ e. e.1 ≡ disk) }
    {
        match lists(alloc, room) {
            Ok((entries, sectors)) => {
                let begun = disk.transfers();
                Ok(QueueOver {
                    beneath: disk,
                    entries,
                    sectors,
                    filter: Filter::empty(),
                    room,
                    head: 0,
                    head_free: true,
                    guess: 0,
                    transfers: 0,
                    begun,
                    no_sync: 0,
                    own: 0,
                    changed: None,
                })
            }
            Err(_) => Err((NoMemory, disk)),
        }
    }
}

impl<'d, D: Disk, A: Allocator + Clone> QueueOver<&'d mut D, A> {
    ghost use Rattle.labelled_disk.specs.State.{lent_state};
    ghost use Rattle.write_queue.specs.Queue.{disk_of, view_of, tally_of};
    ghost use Rattle.write_queue.specs.View.{new_view, new_tally};

    /// A queue over a disk that is lent, with room for 1 to 256 pages. All memory is taken here.
    pub fn with_room(alloc: A, disk: &'d mut D, room: u32) -> Result<Queue<'d, D, A>, NoMemory>
        requires least { 1 ≤ room }
        requires most { room ≤ 256 }
        ensures over { IfOk result (λ q. (disk_of q).now ≡ disk.old) }
        ensures view { IfOk result (λ q. view_of q
            ≡ new_view (lent_state (disk_of q).ghost_name (D.state disk.old)) room) }
        ensures tally { IfOk result (λ q. tally_of q ≡ new_tally (D.state disk.old)) }
    {
        match QueueOver::over(alloc, disk, room) {
            Ok(queue) => Ok(queue),
            Err((none, _)) => Err(none),
        }
    }
}

impl<D: Disk, A: Allocator> QueueOver<D, A> {
    ghost use Rattle.write_queue.specs.Queue.{disk_of, state_of, view_of, tally_of, StandsBeneath};
    ghost use Rattle.write_queue.specs.View.{IsPaid};

    /// Gives the pages that wait up, and the disk back. After an Ok of `sync` none wait, and the
    /// disk holds what the queue revealed.
    pub fn into_disk(self) -> D
        ensures disk { result ≡ disk_of self }
        ensures synced { (state_of self).synced ≡ true → StandsBeneath (state_of self)
            (view_of self) }
    {
        let QueueOver {
            beneath,
            entries: _,
            sectors: _,
            filter: _,
            room: _,
            head: _,
            head_free: _,
            guess: _,
            transfers: _,
            begun: _,
            no_sync: _,
            own: _,
            changed: _,
        } = self;
        beneath
    }

    /// How many pages wait.
    pub fn waiting(&self) -> u32
        ensures count { result ≡ length (view_of self.now).waiting }
        ensures fits { result ≤ (view_of self.now).room }
        ensures room { (view_of self.now).room ≤ 256 }
        ensures each { AreWaiting (view_of self.now).beneath (view_of self.now).waiting }
    {
        self.entries.len() as u32
    }

    /// How many sectors were moved beneath since the disk was made: since the queue was made at most
    /// two for each of its calls that name a sector, and one for each syncing that failed.
    pub fn moved_beneath(&self) -> u64
        ensures value { result ≡ (view_of self.now).beneath.transfers }
        ensures paid { IsPaid (view_of self.now) (tally_of self.now) }
    {
        self.beneath.transfers()
    }

    /// The sector in which another label was found than that of the page that waits for it, with
    /// that page and the label that was found. The last such sector stays.
    pub fn changed(&self) -> Option<(u32, Wanted, Label)>
        ensures value { result ≡ (view_of self.now).changed }
        ensures differs { IfSome result (λ c. names c.2 c.1 ≡ false) }
        ensures untold { IsSome (view_of self.now).beneath.contents → result ≡ None }
        ensures counted { result ≡ None → (view_of self.now).own ≡ 0 }
    {
        self.changed
    }
}
