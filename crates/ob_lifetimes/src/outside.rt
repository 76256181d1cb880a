ghost use Rattle.std.specs.Prelude.{◌≡◌, true, unwrap_or, IsSome, IsOk, OnOk, OnErr};
ghost use Rattle.ob_model.specs.Accesses.{bytes_of_kind, granule, is_aligned};
ghost use Rattle.ob_model.specs.Bounded.{after_load, after_store, listed_cell};
ghost use Rattle.ob_model.specs.Cells.{unset};
ghost use Rattle.ob_code.specs.Accesses.{read_listed, write_cell};
ghost use Rattle.ob_lifetimes.specs.Living.{IsLive};

use crate::Lifetimes;
use ob_base::NoMemory;
use ob_model::LoadKind;

impl Lifetimes {
    /// What a load finds at an offset outside of an object's own granules, as `Outside::load`. Takes no memory.
    pub fn load_outside(&mut self, kind: LoadKind, object: u64, offset: i64) -> Option<u64>
        requires { is_aligned offset (bytes_of_kind kind) ≡ true }
        ensures word { result ≡ read_listed kind offset (listed_cell object (granule offset) self.old.outside) }
        ensures moved { self.new ≡ record self.old { outside = after_load object (granule offset) self.old.outside } }
    {
        self.outside.load(kind, object, offset)
    }

    /// Stores a word at an offset outside of a live object's own granules, as `Outside::store`. `NoMemory` comes
    /// only where the granule isn't listed, and changes nothing.
    pub fn store_outside(
        &mut self,
        kind: LoadKind,
        object: u64,
        offset: i64,
        w: u64,
    ) -> Result<(), NoMemory>
        requires aligned { is_aligned offset (bytes_of_kind kind) ≡ true }
        requires live { IsLive object self.old.entries }
        ensures stored { OnOk result (self.new ≡ record self.old { outside = after_store self.old.cap object (granule offset) (write_cell kind offset w (unwrap_or (listed_cell object (granule offset) self.old.outside) unset)) self.old.outside }) }
        ensures kept { IsSome (listed_cell object (granule offset) self.old.outside) → IsOk result }
        ensures unchanged { OnErr result (self.new ≡ self.old) }
    {
        self.outside.store(kind, object, offset, w)
    }
}
