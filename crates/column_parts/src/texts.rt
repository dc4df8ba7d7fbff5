//! Strings of bytes, one behind another.
ghost use Rattle.std.specs.Prelude.{◌≡◌, ◌<◌, ◌≤◌, [], ◌∷◌, ◌++◌, length, take, Some, IfOk, OnOk, OnErr};
ghost use Rattle.std.specs.List.{slice_get};
ghost use Rattle.column_parts.specs.Cuts.{cuts, IsCut};

use crate::part;
use crate::places::append_places;
use std::alloc::Global;
use std::marker::Model;
use value_lists::OutOfMemory;

/// Strings of bytes, seen as the list of them.
#[derive(Drop)]
pub struct Texts {
    /// Where each begins, and where the last ends.
    starts: Vec<usize>,
    bytes: Vec<u8>,
}

impl Model for Texts {
    ghost use Rattle.std.specs.Prelude.{List, ℕ, length};
    ghost use Rattle.column_parts.specs.Cuts.{cuts, IsCut};

    ghost Value = { List (List ℕ) };

    ghost view = { λ t. cuts t.starts.items t.bytes.items };

    ghost invariant = { λ t. IsCut t.starts.items (length t.bytes.items) };
}

impl Texts {
    /// No strings.
    ///
    /// # Errors
    ///
    /// [`OutOfMemory`] where there is no room for the first place.
    pub fn new(alloc: Global) -> Result<Texts, OutOfMemory>
        ensures { IfOk result (λ texts. texts ≡ []) }
    {
        let mut starts = Vec::new(alloc);
        starts.push(0usize)?;
        Ok(Texts {
            starts,
            bytes: Vec::new(alloc),
        })
    }

    /// How many strings there are.
    #[tactic(auto, using(crate::proofs::Cuts::cut_laws))]
    pub fn len(&self) -> usize
        ensures { result ≡ length self.now }
    {
        self.starts.len() - 1
    }

    /// The string at a place.
    #[inline]
    #[tactic(auto, using(crate::proofs::Cuts::cut_laws))]
    pub fn at(&self, place: usize) -> &[u8]
        requires { place < length self.now }
        ensures { slice_get self.now place ≡ Some result.now }
    {
        let (from, to) = part(&self.starts, self.bytes.len(), place);
        &self.bytes[from..to]
    }

    /// Adds a string.
    ///
    /// # Errors
    ///
    /// [`OutOfMemory`] where there is no room; the strings are as before.
    pub fn push(&mut self, text: &[u8]) -> Result<(), OutOfMemory>
        ensures ok { OnOk result (self.new ≡ self.old ++ text.now ∷ []) }
        ensures err { OnErr result (self.new ≡ self.old) }
    {
        push_text(&mut self.starts, &mut self.bytes, text)
    }

    /// Adds copies of these strings, all or none.
    ///
    /// # Errors
    ///
    /// [`OutOfMemory`] where there is no room; the strings are as before.
    pub fn append(&mut self, other: &Texts) -> Result<(), OutOfMemory>
        ensures ok { OnOk result (self.new ≡ self.old ++ other.now) }
        ensures err { OnErr result (self.new ≡ self.old) }
    {
        append_texts(
            &mut self.starts,
            &mut self.bytes,
            &other.starts,
            &other.bytes,
        )
    }

    /// Gives back the room that no string stands in.
    pub fn shrink_to_fit(&mut self)
        ensures { self.new ≡ self.old }
    {
        self.starts.shrink_to_fit();
        self.bytes.shrink_to_fit();
    }

    /// Drops all strings from place `count` on.
    #[tactic(auto, using(crate::proofs::Cuts::cut_laws))]
    pub fn truncate(&mut self, count: usize)
        requires { count ≤ length self.old }
        ensures { self.new ≡ take count self.old }
    {
        truncate_texts(&mut self.starts, &mut self.bytes, count);
    }
}

fn push_text(starts: &mut Vec<usize>, bytes: &mut Vec<u8>, text: &[u8]) -> Result<(), OutOfMemory>
    requires { IsCut starts.old.items (length bytes.old.items) }
    ensures cut { IsCut starts.new.items (length bytes.new.items) }
    ensures ok { OnOk result (cuts starts.new.items bytes.new.items ≡ cuts starts.old.items bytes.old.items ++ text.now ∷ []) }
    ensures err { OnErr result (cuts starts.new.items bytes.new.items ≡ cuts starts.old.items bytes.old.items) }
{
    starts.reserve(1)?;
    bytes.extend_from_slice(text)?;
    starts.push(bytes.len())?;
    Ok(())
}

fn append_texts(
    starts: &mut Vec<usize>,
    bytes: &mut Vec<u8>,
    more_starts: &[usize],
    more: &[u8],
) -> Result<(), OutOfMemory>
    requires cut { IsCut starts.old.items (length bytes.old.items) }
    requires more { IsCut more_starts.now (length more.now) }
    ensures cut { IsCut starts.new.items (length bytes.new.items) }
    ensures ok { OnOk result (cuts starts.new.items bytes.new.items ≡ cuts starts.old.items bytes.old.items ++ cuts more_starts.now more.now) }
    ensures err { OnErr result (cuts starts.new.items bytes.new.items ≡ cuts starts.old.items bytes.old.items) }
{
    let base = bytes.len();
    bytes.extend_from_slice(more)?;
    match append_places(starts, base, more_starts, more.len()) {
        Ok(()) => Ok(()),
        Err(error) => {
            bytes.truncate(base);
            Err(error)
        }
    }
}

fn truncate_texts(starts: &mut Vec<usize>, bytes: &mut Vec<u8>, count: usize)
    requires cut { IsCut starts.old.items (length bytes.old.items) }
    requires within { count < length starts.old.items }
    ensures cut { IsCut starts.new.items (length bytes.new.items) }
    ensures after { cuts starts.new.items bytes.new.items ≡ take count (cuts starts.old.items bytes.old.items) }
{
    bytes.truncate(starts[count]);
    starts.truncate(count + 1);
}
