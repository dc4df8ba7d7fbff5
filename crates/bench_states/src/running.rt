//! The states, each by the same two calls.
use best_leaves::BestState;
use int_leaves::IntState;
use list_leaves::{ArrayState, QuantileState};
use set_leaves::SetState;
use std::alloc::Global;
use typed_columns::Args;
use value_types::{OutOfMemory, number};

/// A state that rows are fed to.
pub trait Running: Drop {
    fn feed(&mut self, alloc: Global, row: &Args<'_>) -> Result<(), OutOfMemory>;

    /// A number that the rows decide, taken in little memory.
    fn answer(&self, alloc: Global) -> Result<i128, OutOfMemory>;
}

/// Keeps how many arguments there were.
#[derive(Drop)]
pub struct Lent {
    pub arguments: usize,
}

impl Running for Lent {
    #[inline(never)]
    fn feed(&mut self, _alloc: Global, row: &Args<'_>) -> Result<(), OutOfMemory> {
        self.arguments = self.arguments.wrapping_add(row.len());
        Ok(())
    }

    fn answer(&self, _alloc: Global) -> Result<i128, OutOfMemory> {
        Ok(i128::from(self.arguments as u64))
    }
}

impl Running for IntState {
    fn feed(&mut self, _alloc: Global, row: &Args<'_>) -> Result<(), OutOfMemory> {
        IntState::feed(self, row);
        Ok(())
    }

    fn answer(&self, alloc: Global) -> Result<i128, OutOfMemory> {
        Ok(number(&self.finish(alloc)?).unwrap_or(0))
    }
}

impl Running for BestState {
    fn feed(&mut self, alloc: Global, row: &Args<'_>) -> Result<(), OutOfMemory> {
        BestState::feed(self, alloc, row)
    }

    fn answer(&self, alloc: Global) -> Result<i128, OutOfMemory> {
        Ok(number(&self.finish(alloc)?).unwrap_or(0))
    }
}

impl Running for ArrayState {
    fn feed(&mut self, alloc: Global, row: &Args<'_>) -> Result<(), OutOfMemory> {
        ArrayState::feed(self, alloc, row)
    }

    fn answer(&self, _alloc: Global) -> Result<i128, OutOfMemory> {
        Ok(i128::from(self.is_fed()))
    }
}

impl Running for QuantileState {
    fn feed(&mut self, _alloc: Global, row: &Args<'_>) -> Result<(), OutOfMemory> {
        QuantileState::feed(self, row)
    }

    fn answer(&self, _alloc: Global) -> Result<i128, OutOfMemory> {
        Ok(i128::from(self.is_fed()))
    }
}

impl Running for SetState {
    fn feed(&mut self, alloc: Global, row: &Args<'_>) -> Result<(), OutOfMemory> {
        SetState::feed(self, alloc, row)
    }

    fn answer(&self, alloc: Global) -> Result<i128, OutOfMemory> {
        Ok(number(&self.finish(alloc)?).unwrap_or(0))
    }
}
