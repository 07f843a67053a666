//! Texts and names: few bytes lie in the value, more are shared by those that hold them.
ghost use Rattle.std.specs.Prelude.{◌≡◌, ◌==◌, ℕ, ◌+◌, [], IfOk, OnErr, SomeIff, string_bytes, IsUtf8, length, refl, Some};
ghost use Rattle.std.specs.Str.{bytes_eq};
ghost use Rattle.std.specs.Ordering.{nat_cmp};
ghost use Rattle.std.specs.Cmp.{partial_equiv_from_equiv};
ghost use Rattle.std.specs.Cmp.Lexicographic.{slice_cmp, nat_list_eq_equiv, nat_list_cmp_total, texts_ties, texts_po};
ghost use Rattle.std.specs.Cmp.Rules.{hashing};
ghost use Rattle.std.specs.Hash as fed;
ghost use Rattle.std.proofs.Common.{rules};

use crate::short_text::ShortText;
use std::alloc::{AllocError, Global};
use std::cmp::Ordering;
use std::hash::{Hash, Hasher};
use std::marker::Model;
use std::sync::ArcStr;

/// Where the bytes of a text lie: up to 28 in the value itself, more in memory that may have several
/// owners.
#[derive(Drop)]
enum Stored {
    Short(ShortText),
    Shared(ArcStr),
}

/// A text of UTF-8.
#[derive(Drop)]
pub struct Text {
    stored: Stored,
}

const _: () = prove!(std::mem::size_of::<Text>() <= 32);

impl Model for Text {
    ghost use Rattle.std.specs.Prelude as spec;
    ghost use Rattle.label_sets.specs.Stored.{stored_bytes};

    ghost Value = { spec.List spec.ℕ };

    ghost view = { λ t. stored_bytes t.stored };
}

impl Text {
    /// The text without bytes. It takes no memory.
    pub fn empty() -> Text
        ensures { result ≡ [] }
    {
        Text {
            stored: Stored::Short(ShortText::empty()),
        }
    }

    /// The text of a string, whose bytes are kept where they are many.
    ///
    /// # Errors
    ///
    /// Want of memory.
    pub fn from_string(text: String) -> Result<Text, AllocError>
        ensures { IfOk result (λ t. t ≡ string_bytes text) }
    {
        let stored = match ShortText::of(text.as_str()) {
            Some(short) => Stored::Short(short),
            None => Stored::Shared(ArcStr::from_string(text)?),
        };
        Ok(Text { stored })
    }

    /// A copy of a text.
    ///
    /// # Errors
    ///
    /// Want of memory.
    pub fn from_str(alloc: Global, text: &str) -> Result<Text, AllocError>
        ensures { IfOk result (λ t. t ≡ text.now) }
    {
        let stored = match ShortText::of(text) {
            Some(short) => Stored::Short(short),
            None => Stored::Shared(ArcStr::from_str(alloc, text)?),
        };
        Ok(Text { stored })
    }

    /// The text that bytes spell, or `None` where they are no UTF-8 (RFC 3629), for which no
    /// memory is taken. The bytes are tested once and copied once.
    ///
    /// # Errors
    ///
    /// Want of memory.
    pub fn from_bytes(alloc: Global, bytes: &[u8]) -> Result<Option<Text>, AllocError>
        ensures text { IfOk result (λ t. SomeIff t (IsUtf8 bytes.now) bytes.now) }
        ensures memory { OnErr result (IsUtf8 bytes.now) }
    {
        match std::str::from_utf8(bytes) {
            Ok(text) => Ok(Some(Text::from_str(alloc, text)?)),
            Err(_) => Ok(None),
        }
    }

    /// The text that bytes spell, for bytes that are known to be UTF-8 (RFC 3629): they are not
    /// tested again.
    ///
    /// # Errors
    ///
    /// Want of memory.
    pub fn from_utf8(alloc: Global, bytes: &[u8]) -> Result<Text, AllocError>
        requires { IsUtf8 bytes.now }
        ensures { IfOk result (λ t. t ≡ bytes.now) }
    {
        let text = unsafe { std::str::from_utf8_unchecked(bytes) };
        Text::from_str(alloc, text)
    }

    /// The bytes of the text.
    pub fn as_bytes(&self) -> &[u8]
        ensures { result.now ≡ self.now }
    {
        self.as_str().as_bytes()
    }

    /// The text as a slice.
    #[inline]
    pub fn as_str(&self) -> &str
        ensures { result.now ≡ self.now }
    {
        match &self.stored {
            Stored::Short(text) => text.as_str(),
            Stored::Shared(text) => text.as_str(),
        }
    }

    /// How many bytes the text has.
    pub fn len(&self) -> usize
        ensures { result ≡ length self.now }
    {
        self.as_str().len()
    }

    /// Whether the text has no byte.
    pub fn is_empty(&self) -> bool
        ensures { result ≡ (length self.now == 0) }
    {
        self.as_str().is_empty()
    }

    /// The same text, with one owner more where it has many bytes.
    ///
    /// # Errors
    ///
    /// Want of memory.
    pub fn copy(&self) -> Result<Text, AllocError>
        ensures { IfOk result (λ t. t ≡ self.now) }
    {
        let stored = match &self.stored {
            Stored::Short(text) => Stored::Short(text.copy()),
            Stored::Shared(text) => Stored::Shared(text.clone()?),
        };
        Ok(Text { stored })
    }
}

impl PartialEq for Text {
    ghost eq = { bytes_eq };

    ghost laws = { partial_equiv_from_equiv nat_list_eq_equiv };

    fn eq(&self, other: &Text) -> bool {
        self.as_str() == other.as_str()
    }
}

impl Eq for Text {
    ghost laws = { nat_list_eq_equiv };
}

impl PartialOrd for Text {
    ghost partial_cmp = { λ a b. Some (slice_cmp nat_cmp a b) };

    ghost laws = { texts_po };

    fn partial_cmp(&self, other: &Text) -> Option<Ordering> {
        Some(self.cmp(other))
    }
}

impl Ord for Text {
    ghost cmp = { slice_cmp nat_cmp };

    ghost total = { nat_list_cmp_total };

    ghost matches_partial_cmp = { λ a b. refl };

    ghost matches_eq = { texts_ties };

    fn cmp(&self, other: &Text) -> Ordering {
        self.as_str().cmp(other.as_str())
    }
}

impl Hash for Text {
    ghost hash_input = { fed.str };

    ghost respects_eq = { Prim.search (hashing, rules) };

    fn hash<H: Hasher>(&self, state: &mut H) {
        self.as_str().hash(state);
    }
}

/// A name: a text of UTF-8 that stands for a metric, a label or a family.
#[derive(Drop, PartialEq, Eq, PartialOrd, Ord, Hash)]
pub struct Name {
    text: Text,
}

impl Model for Name {
    ghost use Rattle.std.specs.Prelude as spec;

    ghost Value = { spec.List spec.ℕ };

    ghost view = { λ n. n.text };

    ghost inverse = { λ bytes. record { text = bytes } };
}

impl Name {
    /// The name that a string spells, whose bytes are kept where they are many.
    ///
    /// # Errors
    ///
    /// Want of memory.
    pub fn from_string(text: String) -> Result<Name, AllocError>
        ensures { IfOk result (λ n. n ≡ string_bytes text) }
    {
        let text = Text::from_string(text)?;
        Ok(Name { text })
    }

    /// The text of the name, without a copy.
    pub fn into_text(self) -> Text
        ensures { result ≡ self }
    {
        self.text
    }

    /// A copy of a name.
    ///
    /// # Errors
    ///
    /// Want of memory.
    pub fn from_str(alloc: Global, text: &str) -> Result<Name, AllocError>
        ensures { IfOk result (λ n. n ≡ text.now) }
    {
        let text = Text::from_str(alloc, text)?;
        Ok(Name { text })
    }

    /// The name that bytes spell, or `None` where they are no UTF-8 (RFC 3629), for which no
    /// memory is taken. The bytes are tested once and copied once.
    ///
    /// # Errors
    ///
    /// Want of memory.
    pub fn from_bytes(alloc: Global, bytes: &[u8]) -> Result<Option<Name>, AllocError>
        ensures name { IfOk result (λ n. SomeIff n (IsUtf8 bytes.now) bytes.now) }
        ensures memory { OnErr result (IsUtf8 bytes.now) }
    {
        let text = Text::from_bytes(alloc, bytes)?;
        Ok(text.map(|text| Name { text }))
    }

    /// The name that bytes spell, for bytes that are known to be UTF-8 (RFC 3629): they are not
    /// tested again.
    ///
    /// # Errors
    ///
    /// Want of memory.
    pub fn from_utf8(alloc: Global, bytes: &[u8]) -> Result<Name, AllocError>
        requires { IsUtf8 bytes.now }
        ensures { IfOk result (λ n. n ≡ bytes.now) }
    {
        let text = Text::from_utf8(alloc, bytes)?;
        Ok(Name { text })
    }

    /// The bytes of the name.
    pub fn as_bytes(&self) -> &[u8]
        ensures { result.now ≡ self.now }
    {
        self.text.as_bytes()
    }

    /// The name as a slice.
    pub fn as_str(&self) -> &str
        ensures { result.now ≡ self.now }
    {
        self.text.as_str()
    }

    /// How many bytes the name has.
    pub fn len(&self) -> usize
        ensures { result ≡ length self.now }
    {
        self.text.len()
    }

    /// Whether the name has no byte.
    pub fn is_empty(&self) -> bool
        ensures { result ≡ (length self.now == 0) }
    {
        self.text.is_empty()
    }

    /// The same name, with one owner more where it has many bytes.
    ///
    /// # Errors
    ///
    /// Want of memory.
    pub fn copy(&self) -> Result<Name, AllocError>
        ensures { IfOk result (λ n. n ≡ self.now) }
    {
        let text = self.text.copy()?;
        Ok(Name { text })
    }
}
