//! A text that few have.
ghost use Rattle.std.specs.Prelude.{◌≡◌, None, Some, IfOk, is_some};
ghost use Rattle.label_sets.specs.Lists.{some_passes};
ghost use Rattle.page_model.specs.Rules.{is_unit};

use label_sets::{Memory, Text};
use std::alloc::Global;
use std::marker::Model;

/// A text that few families have: where there is none, it takes little room.
#[derive(Drop)]
pub struct RareText {
    text: Option<Box<Text>>,
}

impl Model for RareText {
    ghost use Rattle.std.specs.Prelude as spec;
    ghost use Rattle.family_rules.specs.Rare.{rare_text};

    ghost Value = { spec.Option (spec.List spec.ℕ) };

    ghost view = { λ t. rare_text t.text };
}

impl RareText {
    /// No text. It takes no memory.
    pub fn none() -> RareText
        ensures { result ≡ None }
    {
        RareText { text: None }
    }

    /// A text.
    ///
    /// # Errors
    ///
    /// Want of memory.
    pub fn some(alloc: Global, text: Text) -> Result<RareText, Memory>
        ensures { IfOk result (λ rare. rare ≡ Some text) }
    {
        Ok(RareText {
            text: Some(Box::new(alloc, text)?),
        })
    }

    /// Whether there is a text.
    pub fn is_some(&self) -> bool
        ensures { result ≡ is_some self.now }
    {
        self.text.is_some()
    }

    /// Whether there is a text that isn't empty.
    pub fn is_filled(&self) -> bool
        ensures { result ≡ some_passes is_unit self.now }
    {
        match &self.text {
            Some(text) => !text.is_empty(),
            None => false,
        }
    }

    /// The text, where there is one.
    pub fn into_text(self) -> Option<Text>
        ensures { result ≡ self }
    {
        match self.text {
            Some(text) => Some(Box::into_inner(text)),
            None => None,
        }
    }
}
