//! What has a key, and the place of a key in a list.
ghost use Rattle.std.specs.Prelude.{◌≡◌, Bool};
ghost use Rattle.std.specs.List.{position_or_len};

/// What is found by a key.
pub(crate) trait Keyed<K> {
    /// Whether it has a key.
    ghost has_key: { Self → K → Bool };

    /// Whether it has this key.
    fn is_of(&self, key: &K) -> bool
        ensures { result ≡ has_key self.now key.now };
}

/// The place of the first that has a key; where none has it, how many there are.
pub(crate) fn place_of<K, T: Keyed<K>>(items: &[T], key: &K) -> usize
    ensures { result ≡ position_or_len (λ item. T.has_key item key.now) items.now }
{
    let mut at = 0;
    while at < items.len() && !items[at].is_of(key) {
        at += 1;
    }
    at
}
