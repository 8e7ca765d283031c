//! JSON that is written a token at a time.

ghost use Rattle.std.specs.Prelude.{◌≡◌, [], ◌∷◌, ◌++◌, OnOk};
ghost use Rattle.std.specs.Fmt.{decimal};
ghost use Rattle.std.specs.Str.{IsUtf8};
ghost use Rattle.json.specs.Lex.{tokens};
ghost use Rattle.json.specs.Print.{print};
ghost use Rattle.json.specs.Token.{begin_object, end_object, begin_array, end_array, key, string, number, boolean, null};
ghost use Rattle.report_json.specs.Values.{Adds};

mod reasons;
mod times;

use json::Writer;
use std::alloc::{AllocError, Global};
use std::marker::Model;

/// JSON that is written a token at a time. Contracts see the tokens so far.
#[derive(Drop)]
pub(crate) struct JsonWriter {
    writer: Writer,
    // Where a text is made before it is written.
    scratch: String,
}

impl Model for JsonWriter {
    ghost use Rattle.std.specs.Prelude.{◌≡◌, List, []};
    ghost use Rattle.json.specs.Token.{Token, tokens_code};

    ghost Value = { List Token };

    ghost coded = { tokens_code };

    ghost view = { λ w. w.writer.tokens };

    ghost invariant = { λ w. w.writer.before ≡ [] };
}

impl JsonWriter {
    /// Nothing is written yet.
    pub(crate) fn new(alloc: Global) -> JsonWriter
        ensures { result ≡ [] }
    {
        JsonWriter {
            writer: Writer::new(Vec::new(alloc)),
            scratch: String::new(alloc),
        }
    }

    /// The text of what was written: with no space, and with the least escapes.
    pub(crate) fn into_text(self) -> Vec<u8>
        ensures text { result.items ≡ print self }
        ensures reads_back { tokens (print self) ≡ self }
        ensures utf8 { IsUtf8 (print self) }
    {
        let JsonWriter { writer, .. } = self;
        writer.into_inner()
    }

    pub(crate) fn begin_object(&mut self) -> Result<(), AllocError>
        ensures { OnOk result (Adds self.old self.new (begin_object ∷ [])) }
    {
        self.writer.begin_object()
    }

    pub(crate) fn end_object(&mut self) -> Result<(), AllocError>
        ensures { OnOk result (Adds self.old self.new (end_object ∷ [])) }
    {
        self.writer.end_object()
    }

    pub(crate) fn begin_array(&mut self) -> Result<(), AllocError>
        ensures { OnOk result (Adds self.old self.new (begin_array ∷ [])) }
    {
        self.writer.begin_array()
    }

    pub(crate) fn end_array(&mut self) -> Result<(), AllocError>
        ensures { OnOk result (Adds self.old self.new (end_array ∷ [])) }
    {
        self.writer.end_array()
    }

    /// The key of the field whose value comes next.
    pub(crate) fn key(&mut self, name: &str) -> Result<(), AllocError>
        ensures { OnOk result (Adds self.old self.new (key name.now ∷ [])) }
    {
        self.writer.key(name)
    }

    pub(crate) fn text(&mut self, text: &str) -> Result<(), AllocError>
        ensures { OnOk result (Adds self.old self.new (string text.now ∷ [])) }
    {
        self.writer.string(text)
    }

    pub(crate) fn number(&mut self, n: u64) -> Result<(), AllocError>
        ensures { OnOk result (Adds self.old self.new (number (decimal n) ∷ [])) }
    {
        self.writer.u64(n)
    }

    pub(crate) fn boolean(&mut self, truth: bool) -> Result<(), AllocError>
        ensures { OnOk result (Adds self.old self.new (boolean truth ∷ [])) }
    {
        self.writer.boolean(truth)
    }

    pub(crate) fn null(&mut self) -> Result<(), AllocError>
        ensures { OnOk result (Adds self.old self.new (null ∷ [])) }
    {
        self.writer.null()
    }
}
