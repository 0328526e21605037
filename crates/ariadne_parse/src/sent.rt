//! The messages that cargo has handed on, so that one that it hands on again is known.

ghost use Rattle.std.specs.Prelude.{◌≡◌, ◌≤◌, ℕ, List, true, false, IfOk};
ghost use Rattle.serde_json.specs.Data.{depth as nesting};
ghost use Rattle.serde_json.specs.Read.{max_depth};
ghost use Rattle.serde_json.specs.View.{view};
ghost use Rattle.ariadne_parse.specs.Sent.{has_text, IsHeldNow, WasSent};

use serde_json::Value;
use std::alloc::{AllocError, Global};
use std::collections::HashSet;

/// The messages that cargo has handed on in a run, by their texts.
#[derive(Drop)]
pub struct Sent {
    texts: HashSet<String>,
    alloc: Global,
}

impl Sent {
    /// None yet.
    pub fn new(alloc: Global) -> Sent
        ensures { (text : List ℕ) → has_text result text ≡ false }
    {
        Sent {
            texts: HashSet::new(alloc),
            alloc,
        }
    }

    /// Holds a message, and returns whether it is none that is held. On `Err` there was no memory.
    pub(crate) fn add(&mut self, message: &Value) -> Result<bool, AllocError>
        requires { nesting (view message.now) ≤ max_depth }
        ensures new { IfOk result (λ is_new. is_new ≡ true
            → IsHeldNow self.old self.new (view message.now)) }
        ensures again { IfOk result (λ is_new. is_new ≡ false
            → WasSent self.old (view message.now)) }
        ensures same { IfOk result (λ is_new. is_new ≡ false → self.new ≡ self.old) }
    {
        let text = message.to_string(self.alloc)?;
        if self.texts.contains(text.as_str()) {
            return Ok(false);
        }
        self.texts.insert(text)?;
        Ok(true)
    }
}
