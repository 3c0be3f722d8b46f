//! Moves: one reference, and what its processor does alone after it.

ghost use Rattle.std.specs.Prelude.{◌≡◌, ◌<◌, ◌≤◌, true, length, slice_set, IfOk, OnOk};
ghost use Rattle.flat_machine.specs.State.{is_running};
ghost use Rattle.flat_machine.specs.Turns.{turn_of};
ghost use Rattle.hart.specs.Deciding.{IsReference};
ghost use Rattle.local_reduction.specs.Live.{HasAllLive};
ghost use Rattle.state_store.specs.TransitionCache.{KnowsLists, KnowsLocalStates};
ghost use Rattle.state_store.specs.Moves.{AreClasses, IsNext};
ghost use Rattle.state_store.specs.StateTables.{IsAfterReference, HasGrown, IsRow, means, placed_at, words_at};

use crate::refusal::MoveRefusal;
use crate::state_tables::{Extent, StateTables, StateVector};
use crate::transition_cache::{TransitionCache, TransitionCaches};
use hart::Decision;
use local_memory::Code;
use local_reduction::laws;

impl StateTables {
    /// Returns the row to which a processor's move leads, or None if the processor has stopped or spins. Moves in the
    /// transition caches are looked up; others are made and noted there.
    ///
    /// # Errors
    ///
    /// [`MoveRefusal::Asks`] only if processors are exchanged; [`MoveRefusal::Memory`] and [`MoveRefusal::Alone`].
    pub fn next<const N: usize>(
        &mut self,
        transition_caches: &mut TransitionCaches,
        code: &Code,
        extent: Extent,
        classes: &[u8],
        row: StateVector<N>,
        p: u8,
    ) -> Result<Option<StateVector<N>>, MoveRefusal>
        requires live { HasAllLive code.now self.old.live }
        requires row { IsRow extent self.old row }
        requires classes { AreClasses extent classes.now }
        requires there { p < extent.processors }
        requires room { extent.processors < N }
        requires narrow { N ≤ 65 }
        requires local_states { KnowsLocalStates extent.exchanged code.now self.old transition_caches.old.local_states }
        requires lists { KnowsLists self.old transition_caches.old.lists }
        ensures kept { OnOk result (HasGrown self.old self.new) }
        ensures local_states { OnOk result
            (KnowsLocalStates extent.exchanged code.now self.new transition_caches.new.local_states) }
        ensures lists { OnOk result (KnowsLists self.new transition_caches.new.lists) }
        ensures next { IfOk result (IsNext extent code.now classes.now self.new (means extent self.old row.entry) p) }
    {
        laws::moves_are_of_any();
        laws::moves_are_of_what_is_kept();
        let _ = classes;
        laws::dead_registers_can_be_forgotten();
        let place = usize::from(p);
        let words_place = usize::from(extent.processors);
        let number = row[place];
        let local_state = self.local_state(number);
        if !local_state.is_running() {
            return Ok(None);
        }
        let Decision::Refer { word, phi, .. } = local_state.decide(code) else {
            return Ok(None);
        };
        let list = row[words_place];
        let before = self.words(list).get(word);
        let after = self.state_after_reference(
            &mut transition_caches.local_states,
            code,
            extent.exchanged,
            number,
            word,
            before,
        )?;
        let written = self.list_after_write(
            &mut transition_caches.lists,
            list,
            word,
            phi.apply(before),
        )?;
        let mut next = row;
        next[place] = after;
        next[words_place] = written;
        Ok(Some(next))
    }

    /// Returns the number of the local state after a reference, given the word's old value.
    fn state_after_reference(
        &mut self,
        transition_cache: &mut TransitionCache,
        code: &Code,
        quietly: bool,
        number: u32,
        word: u32,
        before: u32,
    ) -> Result<u32, MoveRefusal>
        requires there { number < length self.old.local_states }
        requires runs { is_running (placed_at self.old number).local_state.processor.status ≡ true }
        requires refers { IsReference (turn_of (placed_at self.old number).setting code.now
            (placed_at self.old number).local_state.processor) }
        requires known { KnowsLocalStates quietly code.now self.old transition_cache.old }
        ensures kept { OnOk result (HasGrown self.old self.new) }
        ensures known { OnOk result (KnowsLocalStates quietly code.now self.new transition_cache.new) }
        ensures after { IfOk result (IsAfterReference quietly code.now before (placed_at self.old number) self.new) }
    {
        if let Some(after) = transition_cache.get([number, word, before]) {
            return Ok(after);
        }
        let after = self.make_reference(code, quietly, number, before)?;
        transition_cache.remember([number, word, before], after);
        Ok(after)
    }

    /// Makes the reference, runs the processor alone after it, and returns the number of the local state reached.
    fn make_reference(
        &mut self,
        code: &Code,
        quietly: bool,
        number: u32,
        before: u32,
    ) -> Result<u32, MoveRefusal>
        requires there { number < length self.old.local_states }
        requires runs { is_running (placed_at self.old number).local_state.processor.status ≡ true }
        requires refers { IsReference (turn_of (placed_at self.old number).setting code.now
            (placed_at self.old number).local_state.processor) }
        ensures kept { OnOk result (HasGrown self.old self.new) }
        ensures after { IfOk result (IsAfterReference quietly code.now before (placed_at self.old number) self.new) }
    {
        let Ok(mut local_state) = self.local_state(number).restore() else {
            return Err(MoveRefusal::Memory);
        };
        let Ok(()) = local_state.retire(code, before) else {
            return Err(MoveRefusal::Memory);
        };
        local_state.run_to_reference(code, quietly)?;
        let after = self.local_state_number(local_state)?;
        Ok(after)
    }

    /// Returns the number of a list of words after a write of one word.
    fn list_after_write(
        &mut self,
        transition_cache: &mut TransitionCache,
        number: u32,
        word: u32,
        value: u32,
    ) -> Result<u32, MoveRefusal>
        requires there { number < length self.old.words }
        requires word { word < length (words_at self.old number) }
        requires known { KnowsLists self.old transition_cache.old }
        ensures kept { OnOk result (HasGrown self.old self.new) }
        ensures known { OnOk result (KnowsLists self.new transition_cache.new) }
        ensures there { IfOk result (λ written. written < length self.new.words) }
        ensures written { IfOk result (λ written.
            words_at self.new written ≡ slice_set (words_at self.old number) word value) }
    {
        if let Some(written) = transition_cache.get([number, word, value]) {
            return Ok(written);
        }
        let written = self.write_word(number, word, value)?;
        transition_cache.remember([number, word, value], written);
        Ok(written)
    }

    /// Writes the word in a copy of the list, and returns the copy's number.
    fn write_word(&mut self, number: u32, word: u32, value: u32) -> Result<u32, MoveRefusal>
        requires there { number < length self.old.words }
        requires word { word < length (words_at self.old number) }
        ensures kept { OnOk result (HasGrown self.old self.new) }
        ensures there { IfOk result (λ written. written < length self.new.words) }
        ensures written { IfOk result (λ written.
            words_at self.new written ≡ slice_set (words_at self.old number) word value) }
    {
        let Ok(list) = self.words(number).with_word(word, value) else {
            return Err(MoveRefusal::Memory);
        };
        self.words_number(list)
    }
}
