//! A line of JSON while it is written.
ghost use Rattle.std.specs.Prelude.{◌≡◌, [], ◌∷◌, ◌++◌, decimal, IfOk, OnOk};
ghost use Rattle.json.specs.Token.{begin_object, end_object, begin_array, end_array, key, string, number, boolean};
ghost use Rattle.json.specs.Lex.{tokens};
ghost use Rattle.json.specs.Tree.{json_tokens};
ghost use Rattle.json.specs.Print.{print, IsNumber};
ghost use Rattle.aero_report.specs.Json.{bytes_value, name_value};

use base64::engine::general_purpose::STANDARD;
use itoa::Buffer;
use json::{Token, Writer};
use std::alloc::{AllocError, Global};
use std::marker::Model;
use std::str::from_utf8;

/// What a line has so far. Commas and colons are placed; that objects and arrays end is the caller's care.
///
/// Each call fails only where memory runs out, and then the line may lack what was to be written: it is of no more use.
#[derive(Drop)]
pub struct Line {
    alloc: Global,
    writer: Writer<Global>,
}

impl Model for Line {
    ghost use Rattle.std.specs.Prelude.{◌≡◌, List, []};
    ghost use Rattle.json.specs.Token.{Token, tokens_code};

    ghost Value = { List Token };

    ghost coded = { tokens_code };

    ghost view = { λ line. line.writer.tokens };

    ghost invariant = { λ line. line.writer.before ≡ [] };
}

impl Line {
    pub fn new(alloc: Global) -> Line
        ensures { result ≡ [] }
    {
        Line {
            alloc,
            writer: Writer::new(Vec::new(alloc)),
        }
    }

    pub fn begin_object(&mut self) -> Result<(), AllocError>
        ensures { OnOk result (self.new ≡ self.old ++ begin_object ∷ []) }
    {
        self.writer.begin_object()
    }

    /// The key of an object, and its beginning.
    pub fn begin_member(&mut self, label: &str) -> Result<(), AllocError>
        ensures { OnOk result (self.new ≡ self.old ++ (key label.now ∷ begin_object ∷ [])) }
    {
        self.writer.key(label)?;
        self.writer.begin_object()
    }

    pub fn end_object(&mut self) -> Result<(), AllocError>
        ensures { OnOk result (self.new ≡ self.old ++ end_object ∷ []) }
    {
        self.writer.end_object()
    }

    /// The key of an array, and its beginning.
    pub fn begin_array(&mut self, label: &str) -> Result<(), AllocError>
        ensures { OnOk result (self.new ≡ self.old ++ (key label.now ∷ begin_array ∷ [])) }
    {
        self.writer.key(label)?;
        self.writer.begin_array()
    }

    pub fn end_array(&mut self) -> Result<(), AllocError>
        ensures { OnOk result (self.new ≡ self.old ++ end_array ∷ []) }
    {
        self.writer.end_array()
    }

    /// A member that is a number of 32 bits.
    pub fn count(&mut self, label: &str, count: u32) -> Result<(), AllocError>
        ensures { OnOk result (self.new ≡ self.old ++ (key label.now ∷ number (decimal count) ∷ [])) }
    {
        self.long_count(label, u64::from(count))
    }

    /// A member that is a number of 64 bits.
    pub fn long_count(&mut self, label: &str, count: u64) -> Result<(), AllocError>
        ensures { OnOk result (self.new ≡ self.old ++ (key label.now ∷ number (decimal count) ∷ [])) }
    {
        self.writer.key(label)?;
        self.writer.u64(count)
    }

    /// A member that is a number of 128 bits.
    pub fn total(&mut self, label: &str, total: u128) -> Result<(), AllocError>
        ensures { OnOk result (self.new ≡ self.old ++ (key label.now ∷ number (decimal total) ∷ [])) }
    {
        let mut buffer = Buffer::new();
        self.writer.key(label)?;
        self.writer.number(buffer.format(total))
    }

    /// A member that is true or false.
    pub fn flag(&mut self, label: &str, flag: bool) -> Result<(), AllocError>
        ensures { OnOk result (self.new ≡ self.old ++ (key label.now ∷ boolean flag ∷ [])) }
    {
        self.writer.key(label)?;
        self.writer.boolean(flag)
    }

    /// A member that is a string.
    pub fn word(&mut self, label: &str, word: &str) -> Result<(), AllocError>
        ensures { OnOk result (self.new ≡ self.old ++ (key label.now ∷ string word.now ∷ [])) }
    {
        self.writer.key(label)?;
        self.writer.string(word)
    }

    /// A member that is a name.
    pub fn name(&mut self, label: &str, name: &[u8]) -> Result<(), AllocError>
        ensures { OnOk result (self.new ≡ self.old ++
            (key label.now ∷ json_tokens (name_value name.now))) }
    {
        self.writer.key(label)?;
        self.name_alone(name)
    }

    /// A name in an array: a string where its bytes are UTF-8, else an object.
    pub fn name_alone(&mut self, name: &[u8]) -> Result<(), AllocError>
        ensures { OnOk result (self.new ≡ self.old ++ json_tokens (name_value name.now)) }
    {
        match from_utf8(name) {
            Ok(text) => self.writer.token(Token::String(text)),
            Err(_) => self.bytes(name),
        }
    }

    // An object with the bytes in Base64.
    fn bytes(&mut self, bytes: &[u8]) -> Result<(), AllocError>
        ensures { OnOk result (self.new ≡ self.old ++ json_tokens (bytes_value bytes.now)) }
    {
        let text = STANDARD.encode(self.alloc, bytes)?;
        self.begin_object()?;
        self.word("bytes", text.as_str())?;
        self.end_object()
    }

    /// The line's text, with a newline.
    pub fn into_text(self) -> Result<Vec<u8>, AllocError>
        ensures text { IfOk result (λ text. text.items ≡ print self ++ 10 ∷ []) }
        ensures reads_back { OnOk result (tokens (print self) ≡ self) }
    {
        let mut text = self.writer.into_inner();
        text.push(b'\n')?;
        Ok(text)
    }
}
