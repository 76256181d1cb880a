//! The bounded list as a plain vector, the most recently used entry last.
ghost use Rattle.std.specs.Prelude.{◌<◌, length, IfSome};

use ob_model::Cell;
use ob_stray::Dropped;
use std::alloc::{AllocError, Global};

#[derive(Drop)]
pub struct Plain {
    alloc: Global,
    cap: usize,
    rows: Vec<Dropped>,
}

impl Plain {
    pub fn new(alloc: Global, cap: usize) -> Plain {
        Plain {
            alloc,
            cap,
            rows: Vec::new(alloc),
        }
    }

    fn place_of(&self, object: u64, granule: i64) -> Option<usize>
        ensures { IfSome result (λ i. i < length self.now.rows.items) }
    {
        for i in 0..self.rows.len() {
            if self.rows[i].object == object && self.rows[i].granule == granule {
                return Some(i);
            }
        }
        None
    }

    /// Takes a granule's entry out.
    fn taken(&mut self, object: u64, granule: i64) -> Option<Dropped> {
        match self.place_of(object, granule) {
            Some(i) => Some(self.rows.remove(i)),
            None => None,
        }
    }

    pub fn load(&mut self, object: u64, granule: i64) -> Result<Option<Cell>, AllocError> {
        let Some(row) = self.taken(object, granule) else {
            return Ok(None);
        };
        self.rows.push(row)?;
        Ok(Some(row.cell))
    }

    pub fn store(
        &mut self,
        object: u64,
        granule: i64,
        cell: Cell,
    ) -> Result<Option<Dropped>, AllocError> {
        let _ = self.taken(object, granule);
        self.rows.push(Dropped {
            object,
            granule,
            cell,
        })?;
        if self.rows.len() <= self.cap {
            return Ok(None);
        }
        Ok(Some(self.rows.remove(0)))
    }

    pub fn forget(&mut self, object: u64) -> Result<(), AllocError> {
        let mut others = Vec::new(self.alloc);
        for row in &self.rows {
            if row.object != object {
                others.push(*row)?;
            }
        }
        self.rows = others;
        Ok(())
    }

    pub fn clear(&mut self) {
        self.rows = Vec::new(self.alloc);
    }
}
