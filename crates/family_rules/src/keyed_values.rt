//! The values of a page's samples in one list, each by its key. Keys are packed, so that one that comes twice is
//! found, and kept as they are where a page will be made of them, since reading them back takes longer.
ghost use Rattle.std.specs.Prelude.{◌≡◌, ◌++◌, [], ◌∷◌, drop, length, map, IfOk, IfSome, OnOk, List, is_some, if◌then◌else◌};
ghost use Rattle.packed_keys.specs.declared.sample_key.SampleKey.{SampleKey as AnyKey};
ghost use Rattle.family_rules.specs.declared.timed_values.TimedValue.{TimedValue as AnyValue};
ghost use Rattle.family_rules.specs.KeyedValues.{is_key_of, is_passed, samples_at_end, keys_to_come, AreKept, HasRoomForKey};
ghost use Rattle.family_rules.specs.TimedValues.{ComesNext};

use crate::timed_values::{TimedLeft, TimedValue, keep_time, make_room_for_time, pass_over};
use exact_decimal::Number;
use label_sets::{LabelSet, Memory};
use packed_keys::{Keys, SampleKey, SeenKeys};
use std::alloc::Global;
use std::marker::Model;
use std::mem;
use std::vec::IntoIter;

/// The samples so far, each as its key and its value with its time, in the order of their lines; no key comes twice.
#[derive(Drop)]
pub struct KeyedValues {
    seen: SeenKeys,
    /// The same keys, where a page will be made.
    kept: Option<Vec<SampleKey>>,
    values: Vec<Number>,
    /// The times from the first sample on that has one: most pages have none.
    times: Vec<Option<u64>>,
}

impl Model for KeyedValues {
    ghost use Rattle.std.specs.Prelude as spec;
    ghost use Rattle.std.specs.List.{zip};
    ghost use Rattle.packed_keys.specs.declared.sample_key.SampleKey.{SampleKey as Key};
    ghost use Rattle.family_rules.specs.declared.timed_values.TimedValue.{TimedValue as OneValue};
    ghost use Rattle.family_rules.specs.KeyedValues.{AreKeyed};
    ghost use Rattle.family_rules.specs.TimedValues.{timed_values};

    ghost Value = { spec.List (Key × OneValue) };

    ghost view = { λ k. zip k.seen (timed_values k.values.items k.times.items) };

    ghost invariant = { λ k. AreKeyed k.kept k.seen k.values.items k.times.items };
}

/// Makes room for one key more, where keys are kept.
fn make_room(kept: &mut Option<Vec<SampleKey>>) -> Result<(), Memory>
    ensures same { (keys : List AnyKey) → AreKept kept.old keys → AreKept kept.new keys }
    ensures room { OnOk result (HasRoomForKey kept.new) }
{
    match kept {
        Some(kept) => kept.reserve(1),
        None => Ok(()),
    }
}

/// Keeps a key behind the others, where keys are kept.
fn keep(kept: &mut Option<Vec<SampleKey>>, key: SampleKey)
    requires { HasRoomForKey kept.old }
    ensures { (keys : List AnyKey) → AreKept kept.old keys → AreKept kept.new (keys ++ key ∷ []) }
{
    match kept {
        Some(kept) => kept.push_reserved(key),
        None => {}
    }
}

impl KeyedValues {
    /// No samples. They take no memory. `keeps` says that a page will be made.
    pub fn new(alloc: Global, keeps: bool) -> KeyedValues
        ensures { result ≡ [] }
    {
        KeyedValues {
            seen: SeenKeys::new(alloc),
            kept: keeps.then_some(Vec::new(alloc)),
            values: Vec::new(alloc),
            times: Vec::new(alloc),
        }
    }

    /// How many samples there are.
    fn len(&self) -> usize
        ensures { result ≡ length self.now }
    {
        self.values.len()
    }

    /// The keys, packed, where they are not kept as they are.
    pub fn packed_keys(&self) -> Option<&SeenKeys>
        ensures { IfSome result (λ keys. keys.now ≡ map (λ (e : AnyKey × AnyValue). e.0) self.now) }
    {
        match &self.kept {
            Some(_) => None,
            None => Some(&self.seen),
        }
    }

    /// Adds a sample, and answers its key where that isn't new.
    ///
    /// # Errors
    ///
    /// Want of memory.
    pub fn insert(&mut self, key: SampleKey, value: TimedValue) -> Result<Option<SampleKey>, Memory>
        ensures known { IfOk result (λ known. is_some known ≡ is_key_of key self.old) }
        ensures key { IfOk result (λ known. IfSome known (λ k. k ≡ key)) }
        ensures samples { IfOk result (λ known. self.new ≡ (if is_some known then self.old else self.old ++ (key, value) ∷ [])) }
    {
        make_room(&mut self.kept)?;
        self.values.reserve(1)?;
        make_room_for_time(&mut self.times, value.time)?;
        let added = self.seen.insert(&key)?;
        if !added {
            return Ok(Some(key));
        }
        keep(&mut self.kept, key);
        self.values.push_reserved(value.value);
        keep_time(&mut self.times, value.time);
        Ok(None)
    }

    /// Whether one of so many samples at the end has these labels, and the last one has not. What was seen is
    /// forgotten.
    ///
    /// # Errors
    ///
    /// Want of memory.
    pub fn take_passed(
        &mut self,
        alloc: Global,
        count: u32,
        labels: &LabelSet,
    ) -> Result<bool, Memory>
        ensures { IfOk result (λ passed. passed ≡ is_passed labels.now (samples_at_end count self.old)) }
    {
        let seen = mem::replace(self, KeyedValues::new(alloc, false));
        let before = seen.len().saturating_sub(count as usize);
        let mut samples = seen.into_entries();
        samples.pass_over(before);
        let passed = is_passed(alloc, &mut samples, labels);
        drop(samples);
        passed
    }

    /// The samples one after the other.
    pub fn into_entries(self) -> KeyedEntries
        ensures { result ≡ self }
    {
        let KeyedValues {
            seen,
            kept,
            values,
            times,
        } = self;
        let keys = match kept {
            Some(kept) => KeySource::Kept(kept.into_iter()),
            None => KeySource::Packed(seen.into_keys()),
        };
        KeyedEntries {
            keys,
            values: TimedLeft::of(values, times),
        }
    }
}

/// Where keys come from.
#[derive(Drop)]
enum KeySource {
    Kept(IntoIter<SampleKey>),
    Packed(Keys),
}

/// Samples that are still to come, each as its key and its value with its time.
#[derive(Drop)]
pub struct KeyedEntries {
    keys: KeySource,
    values: TimedLeft,
}

impl Model for KeyedEntries {
    ghost use Rattle.std.specs.Prelude as spec;
    ghost use Rattle.std.specs.List.{zip};
    ghost use Rattle.packed_keys.specs.declared.sample_key.SampleKey.{SampleKey as Key};
    ghost use Rattle.family_rules.specs.declared.timed_values.TimedValue.{TimedValue as OneValue};
    ghost use Rattle.family_rules.specs.KeyedValues.{keys_to_come};

    ghost Value = { spec.List (Key × OneValue) };

    ghost view = { λ e. zip (keys_to_come e.keys) e.values };
}

/// The next key, where there is one.
#[inline(always)]
fn next_key(keys: &mut KeySource, alloc: Global) -> Result<Option<SampleKey>, Memory>
    ensures { IfOk result (λ next. ComesNext next (keys_to_come keys.old) (keys_to_come keys.new)) }
{
    match keys {
        KeySource::Kept(keys) => Ok(keys.next()),
        KeySource::Packed(keys) => keys.next(alloc),
    }
}

/// Passes over so many keys.
fn pass_over_keys(keys: &mut KeySource, count: usize)
    ensures { keys_to_come keys.new ≡ drop count (keys_to_come keys.old) }
{
    match keys {
        KeySource::Kept(keys) => pass_over(keys, count),
        KeySource::Packed(keys) => keys.pass_over(count),
    }
}

impl KeyedEntries {
    /// The next sample, where there is one.
    ///
    /// # Errors
    ///
    /// Want of memory.
    #[inline(always)]
    pub fn next(&mut self, alloc: Global) -> Result<Option<(SampleKey, TimedValue)>, Memory>
        ensures { IfOk result (λ next. ComesNext next self.old self.new) }
    {
        let Some(value) = self.values.next() else {
            return Ok(None);
        };
        let next = next_key(&mut self.keys, alloc)?;
        match next {
            Some(key) => Ok(Some((key, value))),
            None => Ok(None),
        }
    }

    /// Passes over so many samples.
    pub fn pass_over(&mut self, count: usize)
        ensures { self.new ≡ drop count self.old }
    {
        pass_over_keys(&mut self.keys, count);
        self.values.pass_over(count);
    }
}

/// Whether one of the samples has these labels, and the last one has not.
fn is_passed(alloc: Global, samples: &mut KeyedEntries, labels: &LabelSet) -> Result<bool, Memory>
    ensures { IfOk result (λ passed. passed ≡ is_passed labels.now samples.old) }
{
    let mut any = false;
    let mut last = false;
    loop {
        let next = samples.next(alloc)?;
        let Some((key, _value)) = next else {
            return Ok(any && !last);
        };
        last = key.labels == *labels;
        any = any || last;
    }
}
