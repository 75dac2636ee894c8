use sqlite_items::Items;
use std::alloc::{AllocError, Global};
use std::marker::Model;

/// The greatest number of parcels that the channel of each ordered pair of processors had so far.
#[derive(Drop)]
pub(crate) struct Lengths {
    processors: u32,
    rows: Vec<Items<u32>>,
}

impl Model for Lengths {
    ghost use Rattle.pyr_size.specs.Followed.{Grid, IsSquare};

    ghost Value = { Grid };

    ghost view = { λ l. record { size = l.processors; rows = l.rows.items } };

    ghost invariant = { λ l. IsSquare l.processors l.rows.items };
}

impl Lengths {
    ghost use Rattle.std.specs.Prelude.{◌≡◌, ◌<◌, ℕ, IfOk};
    ghost use Rattle.pyr_size.specs.Followed.{number_of, raised};

    /// No channel of so many processors had a parcel.
    pub fn new(alloc: Global, processors: u32) -> Result<Lengths, AllocError>
        ensures size { IfOk result (λ l. l.size ≡ processors) }
        ensures none { IfOk result (λ l. (p q : ℕ) → number_of l p q ≡ 0) }
    {
        let mut rows = Vec::with_capacity(alloc, processors as usize)?;
        for _p in 0..processors {
            rows.push(Items::from_vec(vec![in alloc; 0; processors as usize]?))?;
        }
        Ok(Lengths { processors, rows })
    }

    /// The greatest number for a pair.
    pub fn of(&self, from: u32, to: u32) -> u32
        requires from { from < self.now.size }
        requires to { to < self.now.size }
        ensures { result ≡ number_of self.now from to }
    {
        self.rows[from as usize].as_slice()[to as usize]
    }

    /// Notes that the channel of a pair has so many parcels.
    pub fn note(&mut self, from: u32, to: u32, length: u32)
        requires from { from < self.old.size }
        requires to { to < self.old.size }
        ensures size { self.new.size ≡ self.old.size }
        ensures raised { (p q : ℕ) → number_of self.new p q
            ≡ raised (number_of self.old) from to length p q }
    {
        let most = self.of(from, to).max(length);
        let row = &mut self.rows[from as usize];
        row.set(to as usize, most);
    }
}
