//! The first row of a search.

ghost use Rattle.std.specs.Prelude.{◌≡◌, ◌<◌, ◌≤◌, [], length, IfOk, OnOk};
ghost use Rattle.local_reduction.specs.Closing.{ReachesMacroState};
ghost use Rattle.local_reduction.specs.Forgetting.{kept_by};
ghost use Rattle.state_store.specs.Opening.{AreOfExtent, IsOpened, flat_of};
ghost use Rattle.state_store.specs.StateTables.{HasGrown, IsRow, means, setting_at};

use crate::local_state::LocalState;
use crate::refusal::MoveRefusal;
use crate::sparse_words::SparseWords;
use crate::state_tables::{Extent, StateTables, StateVector};
use hart::Core;
use local_memory::Code;
use std::alloc::Global;

impl StateTables {
    /// Runs each processor alone to its next reference, its stop or a spin, and returns the row of the state reached.
    /// The processors have printed nothing before.
    ///
    /// # Errors
    ///
    /// [`MoveRefusal::Alone`] and [`MoveRefusal::Memory`].
    pub fn open<const N: usize>(
        &mut self,
        alloc: Global,
        code: &Code,
        extent: Extent,
        cores: &[Core],
        words: SparseWords,
    ) -> Result<StateVector<N>, MoveRefusal>
        requires cores { AreOfExtent extent cores.now }
        requires room { extent.processors < N }
        requires narrow { N ≤ 65 }
        requires words { length words ≡ extent.shared_words }
        ensures kept { OnOk result (HasGrown self.old self.new) }
        ensures row { IfOk result (IsRow extent self.new) }
        ensures reaches { IfOk result (λ row.
            ReachesMacroState (setting_at extent) code.now (kept_by self.new.live)
            (flat_of code.now cores.now words) (λ k. [])
            (means extent self.new row)) }
    {
        let mut row = [0; N];
        for (p, core) in cores.iter().enumerate() {
            row[p] = self.open_local_state(alloc, code, extent.exchanged, core)?;
        }
        row[usize::from(extent.processors)] = self.words_number(words)?;
        Ok(row)
    }

    /// Runs a processor that has printed nothing alone, and returns the number of the local state reached.
    fn open_local_state(
        &mut self,
        alloc: Global,
        code: &Code,
        exchanged: bool,
        core: &Core,
    ) -> Result<u32, MoveRefusal>
        ensures kept { OnOk result (HasGrown self.old self.new) }
        ensures opened { IfOk result (IsOpened exchanged code.now core.now self.new) }
    {
        let Ok(mut local_state) = LocalState::new(alloc, core) else {
            return Err(MoveRefusal::Memory);
        };
        local_state.run_to_reference(code, false)?;
        if exchanged {
            local_state.set_number(0);
        }
        self.local_state_number(local_state)
    }
}
