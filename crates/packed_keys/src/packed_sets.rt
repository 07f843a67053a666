//! Label sets as bytes, one behind the other.
ghost use Rattle.std.specs.Prelude.{◌≡◌, ◌<◌, ◌++◌, ◌∷◌, [], length, IfOk, OnOk, OnErr, slice_get, Some};
ghost use Rattle.std.specs.List.{All};
ghost use Rattle.packed_keys.specs.declared.sample_key.SampleKey.{SampleKey as AnyKey};
ghost use Rattle.packed_keys.specs.Packing.{labels_in};
ghost use Rattle.packed_keys.specs.Texts.{IsPackedSet};
ghost use Rattle.packed_keys.specs.PackedSets.{sets_of, IsSpan};

use crate::packing::put_labels;
use crate::seen_keys::SeenKeys;
use crate::unpacking::read_set;
use label_sets::{LabelSet, Memory};
use std::alloc::Global;
use std::marker::Model;

/// Where the bytes of a set lie.
#[derive(Clone, Copy)]
pub(crate) struct Span {
    start: usize,
    end: usize,
}

/// Label sets in the order in which they came, as bytes, which take less memory than labels that nobody shares.
#[derive(Drop)]
pub struct PackedSets {
    bytes: Vec<u8>,
    spans: Vec<Span>,
    /// The room in which a set is packed.
    packed: Vec<u8>,
}

impl Model for PackedSets {
    ghost use Rattle.std.specs.Prelude as spec;
    ghost use Rattle.std.specs.List.{All};
    ghost use Rattle.label_sets.specs.declared.label_set.LabelSet.{LabelSet as Set};
    ghost use Rattle.packed_keys.specs.PackedSets.{sets_of, IsSpan};

    ghost Value = { spec.List Set };

    ghost view = { λ s. sets_of s.bytes.items s.spans.items };

    ghost invariant = { λ s. All (IsSpan s.bytes.items) s.spans.items };
}

/// Puts the bytes of a set behind the others.
fn put_packed(bytes: &mut Vec<u8>, spans: &mut Vec<Span>, packed: &[u8]) -> Result<(), Memory>
    requires set { IsPackedSet packed.now }
    requires spans { All (IsSpan bytes.old.items) spans.old.items }
    ensures put { OnOk result (sets_of bytes.new.items spans.new.items ≡ sets_of bytes.old.items spans.old.items ++ labels_in packed.now ∷ []) }
    ensures same { OnErr result (sets_of bytes.new.items spans.new.items ≡ sets_of bytes.old.items spans.old.items) }
    ensures spans { All (IsSpan bytes.new.items) spans.new.items }
{
    spans.reserve(1)?;
    let start = bytes.len();
    bytes.extend_from_slice(packed)?;
    let end = bytes.len();
    spans.push_reserved(Span { start, end });
    Ok(())
}

impl PackedSets {
    /// No sets. They take no memory.
    pub fn new(alloc: Global) -> PackedSets
        ensures { result ≡ [] }
    {
        PackedSets {
            bytes: Vec::new(alloc),
            spans: Vec::new(alloc),
            packed: Vec::new(alloc),
        }
    }

    /// How many sets there are.
    pub fn len(&self) -> usize
        ensures { result ≡ length self.now }
    {
        self.spans.len()
    }

    /// Puts a set behind the others.
    ///
    /// # Errors
    ///
    /// Want of memory.
    pub fn push(&mut self, labels: &LabelSet) -> Result<(), Memory>
        ensures ok { OnOk result (self.new ≡ self.old ++ labels.now ∷ []) }
        ensures err { OnErr result (self.new ≡ self.old) }
    {
        self.packed.clear();
        put_labels(&mut self.packed, labels)?;
        put_packed(&mut self.bytes, &mut self.spans, self.packed.as_slice())
    }

    /// Puts the labels of a key that was seen, the one at this place, behind the others. They are packed already.
    ///
    /// # Errors
    ///
    /// Want of memory.
    pub fn push_seen(&mut self, seen: &SeenKeys, at: usize) -> Result<(), Memory>
        requires { at < length seen.now }
        ensures ok { (key : AnyKey) → slice_get seen.now at ≡ Some key → OnOk result (self.new ≡ self.old ++ key.labels ∷ []) }
        ensures err { OnErr result (self.new ≡ self.old) }
    {
        put_packed(&mut self.bytes, &mut self.spans, seen.packed_labels(at))
    }

    /// The set at a place.
    ///
    /// # Errors
    ///
    /// Want of memory.
    pub fn set(&self, alloc: Global, at: usize) -> Result<LabelSet, Memory>
        requires { at < length self.now }
        ensures { IfOk result (λ set. slice_get self.now at ≡ Some set) }
    {
        let span = self.spans[at];
        read_set(alloc, &self.bytes[span.start..span.end])
    }
}
