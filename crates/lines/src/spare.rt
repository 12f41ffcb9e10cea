//! Memory of records that are done with, for the values of records to come.

ghost use Rattle.std.specs.Prelude.{◌≡◌, ◌<◌, IfSome, length, set, string_bytes};

use std::alloc::Global;
use std::mem;
use values::Value;

/// The most texts that are kept, one for each column that a schema can have.
const MAX_TEXTS: usize = 32;

/// Memory for the values of a record. What stands in it means nothing.
#[derive(Drop)]
pub(crate) struct Spare {
    alloc: Global,
    values: Vec<Value>,
    texts: Vec<String>,
}

impl Spare {
    ghost use Rattle.std.specs.Prelude.{◌≡◌, ◌<◌, IfSome, length, set, string_bytes};

    /// No memory yet.
    pub(crate) fn new(alloc: Global) -> Spare {
        Spare {
            alloc,
            values: Vec::new(alloc),
            texts: Vec::new(alloc),
        }
    }

    /// A list of so many values, which mean nothing; `None` where there is no memory.
    #[inline(always)]
    pub(crate) fn list(&mut self, len: usize) -> Option<Vec<Value>>
        ensures { IfSome result (λ v. length v.items ≡ len) }
    {
        let mut values = mem::replace(&mut self.values, Vec::new(self.alloc));
        values.resize_with(len, || Value::Null).ok()?;
        Some(values)
    }

    /// Puts NULL at a place, and keeps the memory of a text that stood there.
    #[inline(always)]
    pub(crate) fn clear_at(&mut self, values: &mut Vec<Value>, place: usize)
        requires { place < length values.old.items }
        ensures { values.new.items ≡ set values.old.items place Value.Null }
    {
        if let Value::Text(text) = mem::replace(&mut values[place], Value::Null) {
            self.keep_text(text);
        }
    }

    /// A copy of a text; `None` where there is no memory.
    #[inline(always)]
    pub(crate) fn copy(&mut self, text: &str) -> Option<String>
        ensures { IfSome result (λ copy. string_bytes copy ≡ text.now) }
    {
        let Some(mut copy) = self.texts.pop() else {
            return String::from_str(self.alloc, text).ok();
        };
        copy.clear();
        match copy.push_str(text) {
            Ok(()) => Some(copy),
            Err(_) => None,
        }
    }

    /// Keeps the memory of these values.
    #[inline(always)]
    pub(crate) fn keep(&mut self, values: Vec<Value>) {
        self.values = values;
    }

    /// Keeps the memory of a text, where that of few others is kept.
    #[inline(always)]
    fn keep_text(&mut self, text: String) {
        if self.texts.len() < MAX_TEXTS {
            // Where there is no memory for it, it is not kept.
            let _ = self.texts.push(text);
        }
    }
}
